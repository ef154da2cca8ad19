// Going back to a mark: its counts become those of the tables, so that the rows behind them are no more; and the links and ranges of
// children that led to such a row end before it. The rows that stay keep all their other words.
ghost use Rattle.std.specs.Prelude.{true, false, ◌≡◌, ℕ, ◌+◌, ◌<◌, ◌≤◌, eqb, length};
ghost use Rattle.layout.specs.Columns.{buffer_length, column_count, column_size, columns};
ghost use Rattle.layout.specs.Reading.{store_in};
ghost use Rattle.layout.specs.Soundness.{IsSound, sound_buffer};
ghost use Rattle.layout.specs.Journal.{counts_of, counts_within, cut_to};
ghost use Rattle.layout.specs.MarkedReading.{row_counts};
ghost use Rattle.undo_log.specs.CutWrites.{counts_taken, link_cut, links_cut, end_made, ends_made, ChildrenFit, children_cut};
ghost use Rattle.undo_log.specs.CutBack.{MarksKept, back_sound};

use layout::columns::{COUNTS, MARK_COUNTS, StoreWords, at, copy, number, put, put_same};
use layout::families::{BLOCKS_IN_REGIONS, Family, OPS_IN_BLOCKS};

// The counts of a mark's row become those of the tables. The eighth word, the number of set marks, stays.
fn take_counts(store: &mut StoreWords, row: usize)
    requires { row < 8 }
    ensures { columns store.new ≡ counts_taken (columns store.old) row }
{
    copy(store, COUNTS, 0, MARK_COUNTS, 8 * row, 8 * row + 7);
}

// A link to a child that is cut leads nowhere.
#[tactic(auto, unfolding(crate::specs::CutWrites::link_cut))]
fn link_cut(count: u32, link: u32) -> u32
    ensures { result ≡ link_cut count link }
{
    if link >= count { 0 } else { link }
}

// The links of the children that stay: the first `count` words of a column of links.
#[inline(always)]
fn cut_links(store: &mut StoreWords, links: usize, count: usize)
    requires links_lt_column_count { links < column_count }
    requires count_bound { count ≤ column_size links }
    requires count_few { count ≤ 512 }
    ensures { columns store.new ≡ links_cut (columns store.old) links count }
{
    for i in 0..count {
        let link = link_cut(count as u32, at(store, links, i));
        put(store, links, i, link);
    }
}

// The range of child n's owner ends behind it. The child's word in the column of owners is `word`.
#[inline(always)]
#[tactic(auto, unfolding(crate::specs::CutWrites::end_made, crate::specs::CutWrites::end_put, crate::specs::CutWrites::with_column, layout::specs::Columns::write))]
fn end_child(store: &mut StoreWords, family: Family, word: usize, n: usize)
    requires ends_lt_column_count { family.ends < column_count }
    requires word_bound { word < column_size family.ends + family.offset }
    requires n_bound { n < 512 }
    ensures { columns store.new ≡ end_made (columns store.old) family.ends family.offset word n }
{
    if word >= family.offset {
        put(store, family.ends, word - family.offset, (n + 1) as u32);
    }
}

// Each owner's range ends behind the last of the `count` children that name it.
#[inline(always)]
fn end_children(store: &mut StoreWords, family: Family, count: usize)
    requires owners_lt_column_count { family.owners < column_count }
    requires ends_lt_column_count { family.ends < column_count }
    requires ends_value { eqb family.owners family.ends ≡ false }
    requires count_bound { count ≤ column_size family.owners }
    requires count_few { count ≤ 512 }
    requires by_index { (i : ℕ) → i < count → Rattle.layout.specs.Columns.at (columns store.old) family.owners i < column_size family.ends + family.offset }
    ensures { columns store.new ≡ ends_made (columns store.old) family.owners family.ends family.offset count }
{
    for i in 0..count {
        let word = number(store, family.owners, i);
        end_child(store, family, word, i);
    }
}

// The links of the children that stay, and where the ranges of the owners that stay end; without a child left, at 0. The owners' count comes
// behind that of the children.
#[inline(always)]
#[tactic(auto, unfolding(crate::specs::CutWrites::children_cut))]
fn cut_children(store: &mut StoreWords, family: Family)
    requires { ChildrenFit (columns store.old) family }
    ensures { columns store.new ≡ children_cut (columns store.old) family }
{
    let count = number(store, COUNTS, family.table);
    let left = number(store, COUNTS, family.table + 1);
    cut_links(store, family.links, count);
    put_same(store, family.ends, 0, left, 0);
    end_children(store, family, count);
}

// Cuts the tables of a sound buffer to the counts of a mark's row. They are sound again where the store that is left is, the row's counts
// of operands, successors and attributes are its own, and no range of what stays ends behind the row's counts.
pub fn cut_tables(store: &mut StoreWords, row: usize)
    requires sound { IsSound store.old }
    requires row_bound { row < 8 }
    requires store_value { counts_within (row_counts (columns store.old) row) (counts_of (store_in store.old)) ≡ true }
    ensures store_after { store_in store.new ≡ cut_to (row_counts (columns store.old) row) (store_in store.old) }
    ensures sound_after { sound_buffer store.new ≡ back_sound (columns store.old) row }
    ensures marks_kept { MarksKept (columns store.old) (columns store.new) }
{
    take_counts(store, row);
    cut_children(store, OPS_IN_BLOCKS);
    cut_children(store, BLOCKS_IN_REGIONS);
}
