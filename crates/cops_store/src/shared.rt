//! What all slots share: the table of their chains, and that of their garbage-collection entries.
ghost use Rattle.std.specs.Prelude.{◌≡◌, ◌<◌, ◌≤◌, ◌∷◌, ◌++◌, ◌-◌, ◌^◌, List, [], length, IsTrue, OnOk};
ghost use Rattle.std.specs.List.{AllByRecursion};
ghost use Rattle.cops_store.specs.declared.table.Due.{Due as DueEntry};
ghost use Rattle.cops_store.specs.Dues.{IsDueLine, IsDueTurn, IsFromLeast, dues_in};
ghost use Rattle.cops_store.specs.Lines.{chain_entries_at, chains_at, IsRoomy, OtherSlotsStay};
ghost use Rattle.cops_store.specs.Tables.{all_rows, cleaned_by_first, collect_chains_by, kept_dues, AreCountable, AreNoted, IsFreed, IsShelf};

use crate::due_rows::{DueLine, DueRows};
use crate::table::{self, Table};
use crate::usage::InUse;
use cops_types::Key;
use std::alloc::{AllocError, Global};

/// What all slots share: the table of their chains, and that of their garbage-collection entries.
#[derive(Drop)]
pub struct Tables {
    pub table: Table,
    pub due: DueRows,
}

/// What a collection removed, and a timestamp before which nothing that remains is stale.
#[derive(Clone, Copy, Debug)]
pub struct Cleaned {
    pub freed: InUse,
    pub least: u64,
}

// Returns the outcome of a collection that has not begun.
fn nothing_cleaned() -> Cleaned
    ensures { result ≡ record { freed = record { records = 0; bytes = 0 }; least = 2 ^ 64 - 1 } }
{
    Cleaned {
        freed: InUse {
            records: 0,
            bytes: 0,
        },
        least: u64::MAX,
    }
}

impl Tables {
    // Makes room for one more record of the slot's key, and for its garbage-collection entry.
    pub(crate) fn reserve(
        &mut self,
        alloc: Global,
        slot: usize,
        key: &Key,
    ) -> Result<(), AllocError>
        requires { slot < length self.old.table }
        ensures shelf { (used : InUse) (due : List DueEntry) →
            IsShelf used due (chains_at slot self.old.table) →
            IsShelf used due (chains_at slot self.new.table) }
        ensures due { self.new.due.slots ≡ self.old.due.slots }
        ensures room { OnOk result
            (IsTrue self.new.due.room × IsRoomy key.now (chain_entries_at slot self.new.table)) }
        ensures rows { all_rows (chains_at slot self.new.table)
            ≡ all_rows (chains_at slot self.old.table) }
        ensures others { OtherSlotsStay slot self.old.table self.new.table }
    {
        self.due.reserve(alloc, key)?;
        self.table.reserve(alloc, slot, key)?;
        Ok(())
    }

    // Cleans the chain of a line's first entry if something may be removed there. The entry goes to
    // the end of the line, or leaves it if nothing stale remains.
    fn clean_first(&mut self, dues: &mut DueLine, slot: usize, now: u64, trans_time: u64) -> Cleaned
        requires slot { slot < length self.old.table }
        requires line { IsDueLine self.old.due.slots slot dues.old }
        requires some { 0 < dues.old.count }
        requires countable { AreCountable (all_rows (chains_at slot self.old.table)) }
        ensures chains { chains_at slot self.new.table ≡ cleaned_by_first now trans_time
            (dues_in self.old.due.slots dues.old) (chains_at slot self.old.table) }
        ensures freed { IsFreed result.freed (all_rows (chains_at slot self.old.table))
            (all_rows (chains_at slot self.new.table)) }
        ensures dues { (d : DueEntry) (rest : List DueEntry) →
            dues_in self.old.due.slots dues.old ≡ d ∷ rest →
            (dues_in self.new.due.slots dues.new
            ≡ rest ++ kept_dues now trans_time (chains_at slot self.new.table) (d ∷ []))
            × AllByRecursion (λ e. result.least ≤ e.stale)
            (kept_dues now trans_time (chains_at slot self.new.table) (d ∷ [])) }
        ensures turn { IsDueTurn self.old.due.slots self.new.due.slots slot dues.old dues.new }
        ensures others { OtherSlotsStay slot self.old.table self.new.table }
    {
        let first = self.due.first(dues);
        if !table::is_hit(first, now, trans_time) {
            let stale = first.stale();
            self.due.pass(dues, stale);
            return Cleaned {
                least: stale,
                ..nothing_cleaned()
            };
        }
        let key = first.key();
        let freed = self.table.clean_at(slot, &key, now, trans_time);
        match self.table.oldest_at(slot, &key) {
            Some(oldest) => {
                let least = oldest.max(now.saturating_sub(trans_time));
                self.due.pass(dues, least);
                Cleaned { freed, least }
            }
            None => {
                self.due.drop_first(dues);
                Cleaned {
                    freed,
                    ..nothing_cleaned()
                }
            }
        }
    }

    // Removes what may go of a slot's chains.
    pub(crate) fn clean(
        &mut self,
        dues: &mut DueLine,
        slot: usize,
        now: u64,
        trans_time: u64,
    ) -> InUse
        requires slot { slot < length self.old.table }
        requires line { IsDueLine self.old.due.slots slot dues.old }
        requires countable { AreCountable (all_rows (chains_at slot self.old.table)) }
        requires noted { AreNoted (dues_in self.old.due.slots dues.old)
            (chains_at slot self.old.table) }
        ensures chains { chains_at slot self.new.table ≡ collect_chains_by now trans_time
            (dues_in self.old.due.slots dues.old) (chains_at slot self.old.table) }
        ensures freed { IsFreed result (all_rows (chains_at slot self.old.table))
            (all_rows (chains_at slot self.new.table)) }
        ensures dues { dues_in self.new.due.slots dues.new ≡ kept_dues now trans_time
            (chains_at slot self.new.table) (dues_in self.old.due.slots dues.old) }
        ensures least { IsFromLeast self.new.due.slots dues.new }
        ensures turn { IsDueTurn self.old.due.slots self.new.due.slots slot dues.old dues.new }
        ensures others { OtherSlotsStay slot self.old.table self.new.table }
    {
        let mut total = nothing_cleaned();
        for _entry in 0..dues.count {
            let one = self.clean_first(dues, slot, now, trans_time);
            total = Cleaned {
                freed: InUse {
                    records: total.freed.records + one.freed.records,
                    bytes: total.freed.bytes + one.freed.bytes,
                },
                least: total.least.min(one.least),
            };
        }
        dues.least = total.least;
        total.freed
    }
}
