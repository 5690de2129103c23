//! The space that records take.
ghost use Rattle.std.specs.Prelude.{◌≡◌, ◌<◌, ◌^◌};
ghost use Rattle.cops_store.specs.Contents.{size_of};

use cops_types::Entry;

/// A tenant's use.
#[derive(Clone, Copy, Debug)]
pub struct InUse {
    pub records: u64,
    pub bytes: u64,
}

impl InUse {
    // Returns the two counts, which fit their type.
    pub(crate) fn of(records: u64, bytes: u64) -> Self
        ensures counts { result ≡ record { records = records; bytes = bytes } }
        ensures fits { (result.records < 2 ^ 64) × (result.bytes < 2 ^ 64) }
    {
        InUse { records, bytes }
    }
}

// Returns the bytes of the key and the value.
pub(crate) fn size(entry: &Entry) -> u64
    ensures { result ≡ size_of entry.now }
{
    let key = entry.key();
    let name = key.bytes();
    let value = entry.value().bytes();
    name.len() as u64 + value.len() as u64
}
