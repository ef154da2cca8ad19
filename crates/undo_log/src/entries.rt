// An entry of the journal: read from its words, and as the words that are written.
ghost use Rattle.std.specs.Prelude.{◌≡◌, ◌<◌, ◌≤◌, length};
ghost use Rattle.layout.specs.Columns.{buffer_length, columns};
ghost use Rattle.layout.specs.MarkedReading.{entry_at, max_entries};
ghost use Rattle.undo_log.specs.Entries.{words_of, listed, entry_of, counts_as};

use layout::columns::{
    JOURNAL_CONTENT, JOURNAL_KEY, JOURNAL_KIND, JOURNAL_OWNER, JOURNAL_SORT, StoreWords, at,
};

// The words for the sorts of entries.
pub const OPERAND_WAS: u32 = 0;

pub const ATTRIBUTE_WAS: u32 = 1;

pub const KEY_WAS_NONE: u32 = 2;

// The five words of an entry in the journal: the sort, whom it tells of, and how that was. They may be any.
#[derive(Clone, Copy, PartialEq, Eq, Debug)]
pub struct EntryWords {
    pub sort: u32,
    pub owner: u32,
    pub key: u32,
    pub kind: u32,
    pub content: u32,
}

impl EntryWords {
    // In the order of the journal's columns.
    #[tactic(auto, unfolding(crate::specs::Entries::listed))]
    pub fn listed(self) -> [u32; 5]
        ensures { result ≡ listed self }
    {
        [self.sort, self.owner, self.key, self.kind, self.content]
    }

    // How many replacements an entry of this sort is: one, or none where a key came new.
    pub fn replacements(self) -> usize
        ensures value { result ≡ counts_as self.sort }
        ensures few { result ≤ 1 }
    {
        if self.sort < KEY_WAS_NONE { 1 } else { 0 }
    }
}

// An entry of the journal: an operand as it was, an attribute as it was, or a key that was not there. An owner is told by its word:
// twice its number, and one more for a block; the kind is the word of an attribute's slot, with the flag. So every entry can be written:
// an `Owner` or an `Attribute` would ask of whoever writes it that the number, or the kind, is small.
#[derive(Clone, Copy, PartialEq, Eq, Debug)]
pub enum Entry {
    OperandWas {
        operation: u32,
        index: u32,
        value: u32,
    },
    AttributeWas {
        owner: u32,
        key: u32,
        kind: u32,
        content: u32,
    },
    KeyWasNone {
        owner: u32,
        key: u32,
    },
}

impl Entry {
    // Its words in the journal.
    #[tactic(auto, unfolding(crate::specs::Entries::words_of))]
    pub fn words(self) -> EntryWords
        ensures { result ≡ words_of self }
    {
        match self {
            Entry::OperandWas {
                operation,
                index,
                value,
            } => EntryWords {
                sort: OPERAND_WAS,
                owner: operation,
                key: index,
                kind: value,
                content: 0,
            },
            Entry::AttributeWas {
                owner,
                key,
                kind,
                content,
            } => EntryWords {
                sort: ATTRIBUTE_WAS,
                owner,
                key,
                kind,
                content,
            },
            Entry::KeyWasNone { owner, key } => EntryWords {
                sort: KEY_WAS_NONE,
                owner,
                key,
                kind: 0,
                content: 0,
            },
        }
    }
}

// Entry i of the journal.
pub fn entry_at(store: &StoreWords, i: usize) -> Entry
    requires { i < max_entries }
    ensures { entry_of result ≡ entry_at (columns store.now) i }
{
    let owner = at(store, JOURNAL_OWNER, i);
    let key = at(store, JOURNAL_KEY, i);
    let kind = at(store, JOURNAL_KIND, i);
    let content = at(store, JOURNAL_CONTENT, i);
    match at(store, JOURNAL_SORT, i) {
        OPERAND_WAS => Entry::OperandWas {
            operation: owner,
            index: key,
            value: kind,
        },
        ATTRIBUTE_WAS => Entry::AttributeWas {
            owner,
            key,
            kind,
            content,
        },
        _ => Entry::KeyWasNone { owner, key },
    }
}
