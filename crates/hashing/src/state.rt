// The running hash: one word, which every step is lent and changes, as they do `state` in the Rust. All that is hashed goes through these
// methods.
ghost use Rattle.std.specs.Prelude.{◌≡◌, ◌++◌};
ghost use Rattle.rules.specs.Hash.{fnv_start, fnv_from, tag, leaf, count, flag, name_bytes};

use crate::fnv::{START, feed_count, feed_leaf, feed_tag};
use rules::types::Name;

#[derive(Clone, Copy)]
pub struct RunningHash {
    pub word: u64,
}

impl RunningHash {
    // Nothing is fed yet.
    pub fn new() -> RunningHash
        ensures { result.word ≡ fnv_start }
    {
        RunningHash { word: START }
    }

    // Feeds a tag: 1 byte.
    pub fn hash_tag(&mut self, n: u8)
        ensures { self.new.word ≡ fnv_from self.old.word (tag n) }
    {
        self.word = feed_tag(self.word, n);
    }

    // Feeds a leaf: 4 bytes.
    pub fn hash_leaf(&mut self, n: u32)
        ensures { self.new.word ≡ fnv_from self.old.word (leaf n) }
    {
        self.word = feed_leaf(self.word, n);
    }

    // Feeds a count or a walk number: 8 bytes.
    pub fn hash_count(&mut self, n: u32)
        ensures { self.new.word ≡ fnv_from self.old.word (count n) }
    {
        self.word = feed_count(self.word, n);
    }

    // Feeds a flag: a byte, 1 for yes and 0 for no.
    pub fn hash_flag(&mut self, yes: bool)
        ensures { self.new.word ≡ fnv_from self.old.word (flag yes) }
    {
        self.hash_tag(u8::from(yes));
    }

    // Feeds a use by its name: tag 0 and the walk number, or tag 1 and the number in the store.
    pub fn hash_name(&mut self, name: Name)
        ensures { self.new.word ≡ fnv_from self.old.word (name_bytes name) }
    {
        match name {
            Name::WalkNumber(i) => {
                self.hash_tag(0);
                self.hash_count(i);
            }
            Name::StoreNumber(n) => {
                self.hash_tag(1);
                self.hash_leaf(n);
            }
        }
    }

    // Feeds what only an operation has: its kind, and how many regions it has.
    pub fn hash_head(&mut self, kind: u32, regions: u32)
        ensures { self.new.word ≡ fnv_from self.old.word (leaf kind ++ count regions) }
    {
        self.hash_leaf(kind);
        self.hash_count(regions);
    }

    // Feeds an attribute: its key, its kind, its content, its flag.
    pub fn hash_attribute(&mut self, key: u32, kind: u32, content: u32, yes: bool)
        ensures { self.new.word ≡ fnv_from self.old.word (leaf key ++ leaf kind ++ leaf content ++ flag yes) }
    {
        self.hash_leaf(key);
        self.hash_leaf(kind);
        self.hash_leaf(content);
        self.hash_flag(yes);
    }
}
