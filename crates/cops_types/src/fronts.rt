//! The first bytes of texts, compared eight at a time.
ghost use Rattle.std.specs.Prelude.{◌≡◌, ◌+◌, ◌*◌, ◌≤◌, length, take, drop};
ghost use Rattle.cops_types.specs.KeyHashes.{front_in_slot};
ghost use Rattle.std.specs.Cmp.Lexicographic.{slice_cmp};
ghost use Rattle.std.specs.Ordering.{nat_cmp};
ghost use Rattle.std.specs.declared.cmp.Ordering.TheVariants.{Equal};
ghost use Rattle.cops_types.specs.BigEndian.{big_endian};

use std::cmp::Ordering;

/// Returns the eight bytes from a place on as one number, most significant first.
#[inline(always)]
fn word_at(cells: &[u8], at: usize) -> u64
    requires { at + 8 ≤ length cells.now }
    ensures { result ≡ big_endian 0 (take 8 (drop at cells.now)) }
{
    let mut word = [0; 8];
    word.copy_from_slice(&cells[at..at + 8]);
    u64::from_be_bytes(word)
}

/// Compares the first bytes of two texts: the first eight, and eight from `second` on, each eight
/// as one number.
#[inline(always)]
pub(crate) fn order_of_fronts(cells: &[u8], others: &[u8], second: usize) -> Ordering
    requires second { second ≤ 8 }
    requires cells { second + 8 ≤ length cells.now }
    requires others { second + 8 ≤ length others.now }
    ensures { result
        ≡ slice_cmp nat_cmp (take (second + 8) cells.now) (take (second + 8) others.now) }
{
    match word_at(cells, 0).cmp(&word_at(others, 0)) {
        Ordering::Equal => word_at(cells, second).cmp(&word_at(others, second)),
        order => order,
    }
}

/// Compares the first bytes of two texts, so many words of eight, each as one number. The first two
/// words are the same.
#[inline(never)]
pub(crate) fn order_of_words(cells: &[u8], others: &[u8], words: usize) -> Ordering
    requires begun { 2 ≤ words }
    requires cells { words * 8 ≤ length cells.now }
    requires others { words * 8 ≤ length others.now }
    requires front { slice_cmp nat_cmp (take 16 cells.now) (take 16 others.now) ≡ Equal }
    ensures { result
        ≡ slice_cmp nat_cmp (take (words * 8) cells.now) (take (words * 8) others.now) }
{
    let mut word = 2;
    while word < words {
        let at = word * 8;
        match word_at(cells, at).cmp(&word_at(others, at)) {
            Ordering::Equal => word += 1,
            order => return order,
        }
    }
    Ordering::Equal
}

/// Returns the first seven bytes of a text, and the low byte of a slot.
#[inline(always)]
pub(crate) fn front_in(slot: u64, cells: &[u8]) -> [u8; 8]
    requires { 8 ≤ length cells.now }
    ensures { result ≡ front_in_slot slot cells.now }
{
    let mut word = [0; 8];
    word.copy_from_slice(&cells[..8]);
    word[7] = (slot % 256) as u8;
    word
}
