// The rows of set marks, the oldest first.
ghost use Rattle.std.specs.Prelude.{◌≡◌, ◌<◌, ◌≤◌, length};
ghost use Rattle.layout.specs.Columns.{buffer_length, columns};
ghost use Rattle.layout.specs.MarkedReading.{mark_count};
ghost use Rattle.undo_log.specs.MarkWrites.{row_found, row_taken, mark_taken, row_added};

use layout::columns::{
    COUNTS, ENTRIES, JOURNAL_COUNTS, MARK_COUNTS, MARK_NUMBER, MARK_PLACE, MARKS, StoreWords, at,
    copy, number, put, words,
};

// The row of the set mark with this number.
#[tactic(auto, unfolding(layout::specs::MarkedReading::mark_count))]
pub fn row_of(store: &StoreWords, mark: u32) -> Option<usize>
    requires { mark_count (columns store.now) ≤ 8 }
    ensures { result ≡ row_found (columns store.now) mark }
{
    let count = number(store, COUNTS, MARKS);
    words(store, MARK_NUMBER, 0, count)
        .iter()
        .position(|number| *number == mark)
}

// Takes row i out: the rows behind it move one down.
#[tactic(auto, unfolding(crate::specs::MarkWrites::row_taken, crate::specs::MarkWrites::copied, layout::specs::MarkedReading::mark_count))]
pub fn take_row(store: &mut StoreWords, i: usize)
    requires store_bound { mark_count (columns store.old) ≤ 8 }
    requires i_bound { i < mark_count (columns store.old) }
    ensures { columns store.new ≡ row_taken (columns store.old) i }
{
    let count = number(store, COUNTS, MARKS);
    copy(store, MARK_NUMBER, i, MARK_NUMBER, i + 1, count);
    copy(store, MARK_PLACE, i, MARK_PLACE, i + 1, count);
    copy(store, MARK_COUNTS, 8 * i, MARK_COUNTS, 8 * i + 8, 8 * count);
    put(store, COUNTS, MARKS, (count - 1) as u32);
}

// Takes the mark's row out, if it is set.
#[tactic(auto, using(crate::proofs::Chosen::row_there), unfolding(crate::specs::MarkWrites::mark_taken, crate::specs::MarkWrites::row_found, layout::specs::MarkedReading::mark_count))]
pub fn take_mark(store: &mut StoreWords, mark: u32)
    requires { mark_count (columns store.old) ≤ 8 }
    ensures { columns store.new ≡ mark_taken (columns store.old) mark }
{
    if let Some(row) = row_of(store, mark) {
        take_row(store, row);
    }
}

// Appends a row that names the present: the counts as they are, and a place behind the whole journal.
#[tactic(auto, unfolding(crate::specs::MarkWrites::row_added, crate::specs::MarkWrites::copied, layout::specs::MarkedReading::mark_count, layout::specs::MarkedReading::entry_count))]
pub fn add_row(store: &mut StoreWords, mark: u32)
    requires { mark_count (columns store.old) < 8 }
    ensures { columns store.new ≡ row_added (columns store.old) mark }
{
    let count = number(store, COUNTS, MARKS);
    let entries = at(store, JOURNAL_COUNTS, ENTRIES);
    put(store, MARK_NUMBER, count, mark);
    put(store, MARK_PLACE, count, entries);
    copy(store, MARK_COUNTS, 8 * count, COUNTS, 0, 7);
    put(store, COUNTS, MARKS, (count + 1) as u32);
}
