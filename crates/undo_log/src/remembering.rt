// What is remembered while a mark is set: entries at the journal's end, and how many of them are replacements.
ghost use Rattle.std.specs.Prelude.{◌≡◌, ◌<◌, ◌≤◌, leb, length};
ghost use Rattle.rules.specs.Marks.{max_remembered};
ghost use Rattle.layout.specs.Columns.{buffer_length, columns};
ghost use Rattle.layout.specs.MarkedReading.{entry_count, max_entries};
ghost use Rattle.undo_log.specs.EntryWrites.{replaced_count, words_put, with_words, with_entry};

use crate::entries::{Entry, EntryWords};
use layout::columns::{
    ENTRIES, JOURNAL_COUNTS, JOURNAL_SORT, REPLACED, StoreWords, at, number, put,
};
use mutation::writes::put_row;
use rules::limits::MAX_REMEMBERED;

// No replacement more can be remembered.
pub fn is_full(store: &StoreWords) -> bool
    ensures { result ≡ leb max_remembered (replaced_count (columns store.now)) }
{
    number(store, JOURNAL_COUNTS, REPLACED) >= MAX_REMEMBERED
}

// Writes the words of an entry at a place of the journal.
fn put_words(store: &mut StoreWords, n: usize, words: EntryWords)
    requires { n < max_entries }
    ensures { columns store.new ≡ words_put (columns store.old) n words }
{
    put_row(store, JOURNAL_SORT, n, &words.listed());
}

// Writes an entry at the journal's end, and counts it.
pub fn remember(store: &mut StoreWords, entry: Entry)
    requires store_bound { entry_count (columns store.old) < max_entries }
    requires replaced_bound { replaced_count (columns store.old) ≤ max_remembered }
    ensures { columns store.new ≡ with_entry (columns store.old) entry }
{
    remember_words(store, entry.words());
}

// The same of the words of an entry, whatever they are.
#[tactic(auto, unfolding(crate::specs::EntryWrites::with_words, crate::specs::EntryWrites::replaced_count, layout::specs::MarkedReading::entry_count))]
pub fn remember_words(store: &mut StoreWords, words: EntryWords)
    requires store_bound { entry_count (columns store.old) < max_entries }
    requires replaced_bound { replaced_count (columns store.old) ≤ max_remembered }
    ensures { columns store.new ≡ with_words (columns store.old) words }
{
    let n = number(store, JOURNAL_COUNTS, ENTRIES);
    let replaced = number(store, JOURNAL_COUNTS, REPLACED);
    let more = words.replacements();
    put_words(store, n, words);
    put(store, JOURNAL_COUNTS, ENTRIES, (n + 1) as u32);
    put(store, JOURNAL_COUNTS, REPLACED, (replaced + more) as u32);
}
