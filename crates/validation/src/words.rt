// What is asked of the words of marks and of the journal alone, before anything is undone.
ghost use Rattle.std.specs.Prelude.{◌≡◌, ◌+◌, ◌*◌, ◌<◌, ◌≤◌, leb, length};
ghost use Rattle.layout.specs.Columns.{buffer_length, columns, counts, mark_counts};
ghost use Rattle.layout.specs.Reading.{store_in};
ghost use Rattle.layout.specs.Journal.{counts_of, counts_within};
ghost use Rattle.layout.specs.MarkedReading.{mark_count, row_counts};
ghost use Rattle.validation.specs.Lending.{words_hold, row_fits};

use layout::columns::{
    BLOCKS, COUNTS, ENTRIES, JOURNAL_COUNTS, MARK_COUNTS, MARK_NUMBER, MARK_PLACE, MARKS, OPS,
    REGIONS, REPLACED, StoreWords, VALUES, at, number,
};
use rules::limits::{MAX_MARKS, MAX_REMEMBERED};
use undo_log::freeing::replaced_before;
use undo_log::rows::row_of;

// There are no more marks and entries than there is room for, and the replacements are counted and few.
#[tactic(auto, unfolding(crate::specs::Lending::words_hold, rules::specs::Lists::every, layout::specs::MarkedReading::mark_count, layout::specs::MarkedReading::entry_count))]
pub fn words_hold(store: &StoreWords) -> bool
    ensures { result ≡ words_hold (columns store.now) }
{
    let entries = number(store, JOURNAL_COUNTS, ENTRIES);
    if number(store, COUNTS, MARKS) > 8 || entries > 2048 {
        return false;
    }
    let replaced = replaced_before(store, entries);
    number(store, JOURNAL_COUNTS, REPLACED) == replaced && replaced <= MAX_REMEMBERED
}

// Count k of row i is within that of the tables.
fn count_fits(store: &StoreWords, i: usize, k: usize) -> bool
    requires i_bound { i < 8 }
    requires k_bound { k < 8 }
    ensures { result ≡ leb (Rattle.layout.specs.Columns.at (columns store.now) mark_counts (8 * i + k)) (Rattle.layout.specs.Columns.at (columns store.now) counts k) }
{
    at(store, MARK_COUNTS, 8 * i + k) <= at(store, COUNTS, k)
}

// So are the counts of operations, blocks, regions and values.
#[tactic(auto, using(crate::proofs::Fitting::within_is), unfolding(rules::specs::Lists::every))]
fn counts_fit(store: &StoreWords, i: usize) -> bool
    requires { i < 8 }
    ensures { result ≡ counts_within (row_counts (columns store.now) i) (counts_of (store_in store.now)) }
{
    count_fits(store, i, OPS)
        && count_fits(store, i, BLOCKS)
        && count_fits(store, i, REGIONS)
        && count_fits(store, i, VALUES)
}

// Row i has the number of a mark that no row before it has, and its place and counts are within those of the row after it, whose place is
// `end` and to whose counts the tables are cut.
#[tactic(auto, using(crate::proofs::Fitting::row_placed), unfolding(crate::specs::Lending::row_fits, rules::specs::Lists::every, layout::specs::MarkedReading::mark_count, undo_log::specs::MarkWrites::row_found))]
pub fn row_fits(store: &StoreWords, i: usize, end: usize) -> bool
    requires store_bound { mark_count (columns store.now) ≤ 8 }
    requires i_bound { i < 8 }
    ensures { result ≡ row_fits (columns store.now) i end }
{
    let mark = at(store, MARK_NUMBER, i);
    if mark < 1 || mark > MAX_MARKS {
        return false;
    }
    let marks = number(store, COUNTS, MARKS);
    row_of(store, mark).unwrap_or(marks) == i
        && number(store, MARK_PLACE, i) <= end
        && counts_fit(store, i)
}
