//! The counters of one slot, and its line of garbage-collection entries.
ghost use Rattle.std.specs.Prelude.{◌≡◌, ◌+◌, ◌^◌, ◌<◌, ◌≤◌, count_by, is_some, slice_set, false, None, Some, Err, List, [], ◌∷◌, ◌++◌, length, IsOk, IsTrue, OnOk, OnErr, IfSome};
ghost use Rattle.cops_types.specs.declared.request_errors.RequestError.TheVariants.{Refused};
ghost use Rattle.cops_types.specs.RequestErrors.{IfRefusal};
ghost use Rattle.cops_types.specs.Records.{Tracked, StandsFor, collected as collected_records, collectable};
ghost use Rattle.cops_store.specs.Contents.{LacksVersion, NoneLater, refusal, size_of};
ghost use Rattle.cops_store.specs.Dues.{IsDueLine, IsDueTurn, IsFromLeast, dues_in};
ghost use Rattle.cops_store.specs.Lines.{chain_entries_at, chains_at, IsRoomy, OtherSlotsStay};
ghost use Rattle.cops_store.specs.Tables.{all_rows, IsShelf};
ghost use Rattle.cops_store.specs.Shelves.{empty_shelf};

use crate::due_rows::DueLine;
use crate::shared::Tables;
use crate::usage::{InUse, size};
use cops_types::{Entry, Fault, Key, OwnedValue, Quota, RequestError};
use std::alloc::Global;

/// The counters of a slot, and its line of garbage-collection entries.
#[derive(Clone, Copy, Debug)]
pub struct Shelf {
    /// The slot's entries in the table of all.
    pub due: DueLine,
    /// The present use.
    pub used: InUse,
}

impl Shelf {
    // Returns the state of an empty slot.
    pub(crate) fn new() -> Self
        ensures { result ≡ empty_shelf }
    {
        Shelf {
            due: DueLine::new(),
            used: InUse {
                records: 0,
                bytes: 0,
            },
        }
    }

    // Returns why one more record of that key and value is refused, if it is.
    pub(crate) fn refused(&self, key: &Key, value: &OwnedValue, quota: &Quota) -> Option<Fault>
        ensures { result ≡ refusal quota.now (length key.now + length value.now) self.now.used }
    {
        let name = key.bytes();
        let content = value.bytes();
        let size = name.len() as u64 + content.len() as u64;
        refusal_of(quota, size, InUse::of(self.used.records, self.used.bytes))
    }

    // Stores an entry, committed at the timestamp `now`. A refusal changes no row.
    pub(crate) fn insert(
        &mut self,
        alloc: Global,
        tables: &mut Tables,
        slot: usize,
        entry: Entry,
        now: u64,
        quota: &Quota,
    ) -> Result<(), RequestError>
        requires slot { slot < length tables.old.table }
        requires line { IsDueLine tables.old.due.slots slot self.old.due }
        requires counted { self.old.due.count ≤ count_by is_some tables.old.due.slots }
        requires shelf { IsShelf self.old.used (dues_in tables.old.due.slots self.old.due)
            (chains_at slot tables.old.table) }
        requires new_version { LacksVersion entry.key entry.version
            (all_rows (chains_at slot tables.old.table)) }
        ensures shelf { IsShelf self.new.used (dues_in tables.new.due.slots self.new.due)
            (chains_at slot tables.new.table) }
        ensures least { IsFromLeast tables.old.due.slots self.old.due →
            IsFromLeast tables.new.due.slots self.new.due }
        ensures turn { IsDueTurn tables.old.due.slots tables.new.due.slots slot
            self.old.due self.new.due }
        ensures others { OtherSlotsStay slot tables.old.table tables.new.table }

        // Whatever the rows represent, they then represent that with one more record.
        ensures stands_for { OnOk result ((tracked : List Tracked) →
            StandsFor (all_rows (chains_at slot tables.old.table)) tracked → NoneLater now tracked →
            StandsFor (all_rows (chains_at slot tables.new.table)) (tracked
            ++ record { record_of = record { entry = entry; at = now }; removed = false } ∷ [])) }

        // With reserved room, only the quotas refuse.
        ensures refused { IfSome (refusal quota.now (size_of entry) self.old.used)
            (λ fault. result ≡ Err (Refused fault)) }
        ensures faults { IfRefusal result
            (λ fault. refusal quota.now (size_of entry) self.old.used ≡ Some fault) }
        ensures succeeds { IsTrue tables.old.due.room →
            IsRoomy entry.key (chain_entries_at slot tables.old.table) →
            refusal quota.now (size_of entry) self.old.used ≡ None → IsOk result }
        ensures err { OnErr result (all_rows (chains_at slot tables.new.table)
            ≡ all_rows (chains_at slot tables.old.table)) }
    {
        let size = size(&entry);
        let used = self.used;
        if let Some(fault) = refusal_of(quota, size, used) {
            return Err(RequestError::Refused(fault));
        }
        let due = &mut tables.due;
        let key = entry.key();
        due.reserve(alloc, &key)?;
        let kept = entry.committed(now);
        tables
            .table
            .insert(alloc, slot, &key, kept, due, &mut self.due)?;
        self.used = InUse {
            records: used.records + 1,
            bytes: used.bytes + size,
        };
        Ok(())
    }

    // Removes the records that have been stale for longer than `trans_time`. Returns their number.
    pub(crate) fn collect(
        &mut self,
        tables: &mut Tables,
        slot: usize,
        now: u64,
        trans_time: u64,
    ) -> u64
        requires slot { slot < length tables.old.table }
        requires line { IsDueLine tables.old.due.slots slot self.old.due }
        requires least { IsFromLeast tables.old.due.slots self.old.due }
        requires shelf { IsShelf self.old.used (dues_in tables.old.due.slots self.old.due)
            (chains_at slot tables.old.table) }
        ensures shelf { IsShelf self.new.used (dues_in tables.new.due.slots self.new.due)
            (chains_at slot tables.new.table) }
        ensures least { IsFromLeast tables.new.due.slots self.new.due }
        ensures turn { IsDueTurn tables.old.due.slots tables.new.due.slots slot
            self.old.due self.new.due }
        ensures others { OtherSlotsStay slot tables.old.table tables.new.table }
        ensures removed { (tracked : List Tracked) →
            StandsFor (all_rows (chains_at slot tables.old.table)) tracked →
            result ≡ collectable trans_time now tracked }
        ensures stands_for { (tracked : List Tracked) →
            StandsFor (all_rows (chains_at slot tables.old.table)) tracked →
            StandsFor (all_rows (chains_at slot tables.new.table))
            (collected_records trans_time now tracked) }
    {
        if !self.due.is_ripe(now, trans_time) {
            return 0;
        }
        let used = InUse::of(self.used.records, self.used.bytes);
        let freed = tables.clean(&mut self.due, slot, now, trans_time);
        self.used = InUse {
            records: used.records - freed.records,
            bytes: used.bytes - freed.bytes,
        };
        freed.records
    }

    // Drops all records of the slot, and visits no row of another.
    pub(crate) fn clear(&mut self, tables: &mut Tables, slot: usize)
        requires slot { slot < length tables.old.table }
        requires line { IsDueLine tables.old.due.slots slot self.old.due }
        ensures shelf { self.new ≡ empty_shelf }
        ensures chains { tables.new.table ≡ slice_set tables.old.table slot [] }
        ensures turn { IsDueTurn tables.old.due.slots tables.new.due.slots slot
            self.old.due self.new.due }
        ensures room { tables.new.due.room ≡ tables.old.due.room }
    {
        tables.table.clear(slot);
        tables.due.clear(&mut self.due);
        self.used = InUse {
            records: 0,
            bytes: 0,
        };
    }
}

// Returns why one more record of that size is refused if so much is in use.
fn refusal_of(quota: &Quota, size: u64, used: InUse) -> Option<Fault>
    ensures value { result ≡ refusal quota.now size used }
    ensures fits { result ≡ None → (used.records + 1 < 2 ^ 64) × (used.bytes + size < 2 ^ 64) }
{
    if used.records >= quota.versions {
        return Some(Fault::VersionQuota);
    }
    if used.bytes > quota.bytes || quota.bytes - used.bytes < size {
        return Some(Fault::ByteQuota);
    }
    None
}
