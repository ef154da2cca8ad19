// The call that sets a mark.
ghost use Rattle.std.specs.Prelude.{◌≡◌, true, length};
ghost use Rattle.mutation.specs.Types.{done_of};
ghost use Rattle.rules.specs.Marks.{set_mark, is_mark};
ghost use Rattle.layout.specs.Columns.{buffer_length, columns};
ghost use Rattle.undo_log.specs.MarkWrites.{begun, with_mark};
ghost use Rattle.layout.specs.MarkedReading.{IsLent};
ghost use Rattle.undo_log.specs.MarkedCalls.{PerformsMarked};

use crate::freeing::free;
use crate::rows::{add_row, take_mark};
use layout::columns::{COUNTS, ENTRIES, JOURNAL_COUNTS, MARKS, REPLACED, StoreWords, at, put};
use rules::limits::MAX_MARKS;
use rules::types::Cause;

// Without a mark the journal's words may be anything: it begins with no entry.
#[tactic(auto, unfolding(crate::specs::MarkWrites::begun, layout::specs::MarkedReading::mark_count))]
fn begin(store: &mut StoreWords)
    ensures { columns store.new ≡ begun (columns store.old) }
{
    if at(store, COUNTS, MARKS) == 0 {
        put(store, JOURNAL_COUNTS, ENTRIES, 0);
        put(store, JOURNAL_COUNTS, REPLACED, 0);
    }
}

// Writes what the accepted call writes: the mark's old row goes, a new one comes, and what is before the oldest mark is freed.
#[tactic(auto, using(crate::proofs::SetMark::stays_lent), unfolding(crate::specs::MarkWrites::with_mark))]
fn put_mark(store: &mut StoreWords, mark: u32)
    requires lent { IsLent store.old }
    requires mark_value { is_mark mark ≡ true }
    ensures { columns store.new ≡ with_mark (columns store.old) mark }
{
    begin(store);
    take_mark(store, mark);
    add_row(store, mark);
    free(store);
}

// The call, on a lent buffer.
#[tactic(auto, using(crate::proofs::SetMark::is_mark_lem))]
pub fn set_mark(store: &mut StoreWords, mark: u32) -> Result<(), Cause>
    requires { IsLent store.old }
    ensures { PerformsMarked store.old store.new (set_mark mark) (done_of result) }
{
    if mark < 1 || mark > MAX_MARKS {
        return Err(Cause::NoMark);
    }
    put_mark(store, mark);
    Ok(())
}
