// Going back over a copy of the buffer, from now to the youngest mark and from each mark to the one before it.
ghost use Rattle.std.specs.Prelude.{true, ◌≡◌, ◌<◌, ◌≤◌};
ghost use Rattle.layout.specs.Columns.{columns};
ghost use Rattle.layout.specs.Soundness.{IsSound};
ghost use Rattle.layout.specs.MarkedReading.{mark_count, max_entries};
ghost use Rattle.validation.specs.Lending.{words_hold, CameBack, rows_hold_in};

use crate::words::row_fits;
use layout::columns::{COUNTS, ENTRIES, JOURNAL_COUNTS, MARK_PLACE, MARKS, StoreWords, number};
use layout::sound::is_sound;
use undo_log::cutting::cut_tables;
use undo_log::undoing::undo_between;

// From the row after it, whose place is `end`, to row i: the journal between them is undone, and the tables are cut.
#[tactic(auto, using(crate::proofs::Step::going_back))]
fn step_back(copy: &mut StoreWords, i: usize, end: usize) -> bool
    requires sound { IsSound copy.old }
    requires copy_bound { mark_count (columns copy.old) ≤ 8 }
    requires i_bound { i < 8 }
    requires end_le_max_entries { end ≤ max_entries }
    ensures { CameBack copy.old copy.new i end result }
{
    if !row_fits(copy, i, end) {
        return false;
    }
    let place = number(copy, MARK_PLACE, i);
    if !undo_between(copy, place, end) {
        return false;
    }
    cut_tables(copy, i);
    is_sound(copy)
}

// All rows hold: each can be gone back to, from the youngest to the oldest, before which nothing is remembered.
#[tactic(auto, using(crate::proofs::Marks::words_facts, crate::proofs::Reached::end_fits), unfolding(layout::specs::MarkedReading::mark_count, layout::specs::MarkedReading::entry_count))]
pub fn rows_hold(copy: &mut StoreWords) -> bool
    requires sound { IsSound copy.old }
    requires nonzero { 0 < mark_count (columns copy.old) }
    requires copy_value { words_hold (columns copy.old) ≡ true }
    ensures { result ≡ rows_hold_in (columns copy.old) }
{
    let mut end = number(copy, JOURNAL_COUNTS, ENTRIES);
    for i in (0..number(copy, COUNTS, MARKS)).rev() {
        if !step_back(copy, i, end) {
            return false;
        }
        end = number(copy, MARK_PLACE, i);
    }
    end == 0
}
