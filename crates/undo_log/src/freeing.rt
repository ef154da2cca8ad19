// The journal before the oldest mark is not needed, and goes.
ghost use Rattle.std.specs.Prelude.{◌≡◌, ◌≤◌, length};
ghost use Rattle.layout.specs.Columns.{buffer_length, columns, mark_place};
ghost use Rattle.layout.specs.Journal.{replaced_in};
ghost use Rattle.layout.specs.MarkedReading.{mark_count, entry_count};
ghost use Rattle.undo_log.specs.MarkWrites.{first_entries, entries_back, places_back, freed_before, freed_words, SetFrom, Freeable};

use layout::columns::{
    COUNTS, ENTRIES, JOURNAL_CONTENT, JOURNAL_COUNTS, JOURNAL_KEY, JOURNAL_KIND, JOURNAL_OWNER,
    JOURNAL_SORT, MARK_PLACE, MARKS, REPLACED, StoreWords, at, copy, number, put, words,
};

// How many of the first n entries are replacements.
pub fn replaced_before(store: &StoreWords, n: usize) -> usize
    requires { n ≤ 2048 }
    ensures { result ≡ replaced_in (first_entries (columns store.now) n) }
{
    words(store, JOURNAL_SORT, 0, n)
        .iter()
        .filter(|sort| **sort < 2)
        .count()
}

// Moves the entries from n on to the journal's beginning.
#[tactic(auto, unfolding(crate::specs::MarkWrites::entries_back, crate::specs::MarkWrites::copied, layout::specs::MarkedReading::entry_count))]
fn move_entries(store: &mut StoreWords, n: usize)
    requires n_bound { n ≤ entry_count (columns store.old) }
    requires store_bound { entry_count (columns store.old) ≤ 2048 }
    ensures { columns store.new ≡ entries_back (columns store.old) n }
{
    let entries = number(store, JOURNAL_COUNTS, ENTRIES);
    copy(store, JOURNAL_SORT, 0, JOURNAL_SORT, n, entries);
    copy(store, JOURNAL_OWNER, 0, JOURNAL_OWNER, n, entries);
    copy(store, JOURNAL_KEY, 0, JOURNAL_KEY, n, entries);
    copy(store, JOURNAL_KIND, 0, JOURNAL_KIND, n, entries);
    copy(store, JOURNAL_CONTENT, 0, JOURNAL_CONTENT, n, entries);
}

// Lowers each mark's place by n.
#[tactic(auto, unfolding(layout::specs::MarkedReading::mark_count))]
fn place_back(store: &mut StoreWords, n: u32)
    requires store_bound { mark_count (columns store.old) ≤ 8 }
    requires set_from { SetFrom (columns store.old) n }
    ensures { columns store.new ≡ places_back (columns store.old) n }
{
    let count = number(store, COUNTS, MARKS);
    for i in 0..count {
        let place = at(store, MARK_PLACE, i);
        put(store, MARK_PLACE, i, place - n);
    }
}

// Frees the journal before entry n.
#[tactic(auto, unfolding(crate::specs::MarkWrites::freed_before, layout::specs::MarkedReading::entry_count))]
fn free_before(store: &mut StoreWords, n: usize)
    requires { Freeable (columns store.old) n }
    ensures { columns store.new ≡ freed_before (columns store.old) n }
{
    let entries = number(store, JOURNAL_COUNTS, ENTRIES);
    let replaced = number(store, JOURNAL_COUNTS, REPLACED);
    let gone = replaced_before(store, n);
    move_entries(store, n);
    place_back(store, n as u32);
    put(store, JOURNAL_COUNTS, ENTRIES, (entries - n) as u32);
    put(store, JOURNAL_COUNTS, REPLACED, (replaced - gone) as u32);
}

// Frees the journal before the oldest mark.
#[tactic(auto, unfolding(crate::specs::MarkWrites::freed_words))]
pub fn free(store: &mut StoreWords)
    requires { Freeable (columns store.old) (Rattle.layout.specs.Columns.at (columns store.old) mark_place 0) }
    ensures { columns store.new ≡ freed_words (columns store.old) }
{
    let first = number(store, MARK_PLACE, 0);
    if first > 0 {
        free_before(store, first);
    }
}
