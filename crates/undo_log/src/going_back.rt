// Going back to a mark: the journal behind it is undone, the tables are cut, and what was undone is forgotten.
ghost use Rattle.std.specs.Prelude.{◌≡◌, ◌<◌, ◌≤◌, length};
ghost use Rattle.rules.specs.Marks.{go_back};
ghost use Rattle.layout.specs.Columns.{buffer_length, columns};
ghost use Rattle.mutation.specs.Types.{done_of};
ghost use Rattle.layout.specs.MarkedReading.{mark_count, max_entries, IsLent};
ghost use Rattle.undo_log.specs.MarkedCalls.{PerformsMarked};
ghost use Rattle.undo_log.specs.Returning.{forgotten, PutBack};

use crate::cutting::cut_tables;
use crate::freeing::replaced_before;
use crate::rows::row_of;
use crate::undoing::undo_between;
use layout::columns::{
    COUNTS, ENTRIES, JOURNAL_COUNTS, MARK_PLACE, MARKS, REPLACED, StoreWords, number, put,
};
use rules::types::Cause;

// The journal ends at entry n: those behind it are forgotten, and the replacements among them.
#[tactic(auto, unfolding(crate::specs::Returning::forgotten))]
fn forget_from(store: &mut StoreWords, n: usize)
    requires { n ≤ max_entries }
    ensures { columns store.new ≡ forgotten (columns store.old) n }
{
    let replaced = replaced_before(store, n);
    put(store, JOURNAL_COUNTS, ENTRIES, n as u32);
    put(store, JOURNAL_COUNTS, REPLACED, replaced as u32);
}

// What the accepted call does.
#[tactic(auto, using(crate::proofs::Lent::lent_facts, crate::proofs::UndoneToMark::place_low))]
fn put_back(store: &mut StoreWords, row: usize)
    requires lent { IsLent store.old }
    requires row_bound { row < mark_count (columns store.old) }
    ensures { PutBack store.old store.new row }
{
    let entries = number(store, JOURNAL_COUNTS, ENTRIES);
    let place = number(store, MARK_PLACE, row);
    undo_between(store, place, entries);
    cut_tables(store, row);
    forget_from(store, place);
    put(store, COUNTS, MARKS, (row + 1) as u32);
}

// The call, on a lent buffer.
#[tactic(auto, using(crate::proofs::Lent::lent_facts, crate::proofs::Chosen::row_there))]
pub fn go_back(store: &mut StoreWords, mark: u32) -> Result<(), Cause>
    requires { IsLent store.old }
    ensures { PerformsMarked store.old store.new (go_back mark) (done_of result) }
{
    let Some(row) = row_of(store, mark) else {
        return Err(Cause::NoMark);
    };
    put_back(store, row);
    Ok(())
}
