// Tests of ranges. A row has a range of numbers as two words: the first number, and the first one past the range.
ghost use Rattle.std.specs.Prelude.{◌≡◌, ◌-◌, ◌<◌, ◌≤◌, leb, length};
ghost use Rattle.layout.specs.Columns.{buffer_length, column_size, columns, at, column_count};
ghost use Rattle.layout.specs.Reading.{slice};
ghost use Rattle.layout.specs.Soundness.{tiled, owned, owned_within};

use crate::columns::{StoreWords, number, words};
use crate::lists::all_are;

// The range from `a` to `e` does not end before it begins, and none of its numbers is `n` or above.
#[tactic(auto, unfolding(crate::specs::Soundness::ranged, rules::specs::Lists::every))]
pub fn ranged(a: usize, e: usize, n: usize) -> bool
    ensures { result ≡ Rattle.layout.specs.Soundness.ranged a e n }
{
    e >= a && e <= n
}

// The number `n` lies in the range from `a` to `e`.
#[tactic(auto, unfolding(crate::specs::Soundness::within, rules::specs::Lists::every))]
pub fn within(a: usize, e: usize, n: usize) -> bool
    ensures { result ≡ Rattle.layout.specs.Soundness.within a e n }
{
    n >= a && n < e
}

// Each word of a column in the range from `a` to `e` is `w`.
pub fn all_owned(store: &StoreWords, column: usize, a: usize, e: usize, w: u32) -> bool
    requires column_lt_column_count { column < column_count }
    requires a_le_e { a ≤ e }
    requires e_bound { e ≤ column_size column }
    ensures { result ≡ owned (columns store.now) column a e w }
{
    all_are(words(store, column, a, e), w)
}

// The number `n` lies in the range of a row.
pub fn holds(store: &StoreWords, first: usize, end: usize, row: usize, n: usize) -> bool
    requires first_lt_column_count { first < column_count }
    requires end_lt_column_count { end < column_count }
    requires row_bound { row < column_size first }
    requires end_bound { row < column_size end }
    ensures { result ≡ Rattle.layout.specs.Soundness.within (at (columns store.now) first row) (at (columns store.now) end row) n }
{
    within(number(store, first, row), number(store, end, row), n)
}

// The range of a row has at most `most` numbers.
pub fn at_most(store: &StoreWords, first: usize, end: usize, row: usize, most: usize) -> bool
    requires first_lt_column_count { first < column_count }
    requires end_lt_column_count { end < column_count }
    requires row_bound { row < column_size first }
    requires end_bound { row < column_size end }
    requires range_rises { at (columns store.now) first row ≤ at (columns store.now) end row }
    ensures { result ≡ leb (at (columns store.now) end row - at (columns store.now) first row) most }
{
    let a = number(store, first, row);
    let e = number(store, end, row);
    e - a <= most
}

// The words of a column in the range of a row.
pub fn row_words(store: &StoreWords, first: usize, end: usize, row: usize, column: usize) -> &[u32]
    requires first_lt_column_count { first < column_count }
    requires end_lt_column_count { end < column_count }
    requires column_lt_column_count { column < column_count }
    requires row_bound { row < column_size first }
    requires end_bound { row < column_size end }
    requires range_rises { at (columns store.now) first row ≤ at (columns store.now) end row }
    requires range_within { at (columns store.now) end row ≤ column_size column }
    ensures { result.now ≡ slice (columns store.now column) (at (columns store.now) first row) (at (columns store.now) end row) }
{
    words(
        store,
        column,
        number(store, first, row),
        number(store, end, row),
    )
}

// The range from `a` to `e` is one of numbers below `total`, and each word of a column in it is `w`.
#[tactic(auto, unfolding(crate::specs::Soundness::owned_within, rules::specs::Lists::every))]
pub fn owns(store: &StoreWords, column: usize, a: usize, e: usize, total: usize, w: u32) -> bool
    requires column_lt_column_count { column < column_count }
    requires total_bound { total ≤ column_size column }
    ensures { result ≡ owned_within (columns store.now) column a e total w }
{
    ranged(a, e, total) && all_owned(store, column, a, e, w)
}

// Where the slice of a shared list ends that stands before operation n's; `column` has the ends.
pub fn end_before(store: &StoreWords, column: usize, n: usize) -> usize
    requires column_lt_column_count { column < column_count }
    requires n_bound { n ≤ column_size column }
    ensures { result ≡ Rattle.layout.specs.Soundness.end_before (columns store.now) column n }
{
    if n == 0 {
        return 0;
    }
    number(store, column, n - 1)
}

// Operation n's slice of a shared list begins where the one before it ends, and is one of the first `total` words.
#[tactic(auto, unfolding(crate::specs::Soundness::tiled, rules::specs::Lists::every))]
pub fn is_tiled(store: &StoreWords, first: usize, end: usize, n: usize, total: usize) -> bool
    requires first_lt_column_count { first < column_count }
    requires end_lt_column_count { end < column_count }
    requires n_bound { n < column_size first }
    requires end_bound { n < column_size end }
    ensures { result ≡ tiled (columns store.now) first end n total }
{
    let a = number(store, first, n);
    let e = number(store, end, n);
    a == end_before(store, end, n) && ranged(a, e, total)
}
