// The three offered hashes: each refuses a buffer that is not sound and a list of renamed types that does not hold, and then hashes its
// fragment. The list is lent as flat words: old type, present type, old type, present type.
ghost use Rattle.rules.specs.declared.types.Sort.TheVariants.{Op as op, Block as block, Region as region};
ghost use Rattle.layout.specs.Soundness.{IsSound};
ghost use Rattle.std.specs.Prelude.{true};
ghost use Rattle.layout.specs.MarkedReading.{sound_lent};
ghost use Rattle.hashing.specs.Calls.{HashAnswers};

use fragments::indexing::{INDEX_LENGTH, index_types};
use fragments::view::StoreView;
use hashing::hashes::fragment_hash;
use layout::columns::StoreWords;
use rules::types::{Cause, Ignore, Sort};
use validation::lent::sound_words;

// Hash a fragment of a sound store, with the list of types tested and indexed first.
fn indexed_hash(
    store: &StoreWords,
    types: &[u32],
    sort: Sort,
    n: u32,
    ignore: Ignore,
) -> Result<u64, Cause>
    requires { IsSound store.now }
    ensures { HashAnswers true store.now types.now ignore sort n result }
{
    let mut index = [0; INDEX_LENGTH];
    let words = index_types(types, &mut index).ok_or(Cause::BadTypes)?;
    let view = StoreView {
        store,
        index: &index[..words],
        ignore,
    };
    fragment_hash(&view, sort, n)
}

// Hash a fragment of one sort, in a buffer that may hold any words. No words are the index of the empty list.
fn lent_hash(store: &[u32], types: &[u32], sort: Sort, n: u32, ignore: Ignore) -> Result<u64, Cause>
    ensures { HashAnswers (sound_lent store.now) store.now types.now ignore sort n result }
{
    let Some(words) = sound_words(store) else {
        return Err(Cause::NotSound);
    };
    if types.is_empty() {
        let view = StoreView {
            store: words,
            index: types,
            ignore,
        };
        return fragment_hash(&view, sort, n);
    }
    indexed_hash(words, types, sort, n, ignore)
}

pub fn operation_hash(store: &[u32], types: &[u32], n: u32, ignore: Ignore) -> Result<u64, Cause>
    ensures { HashAnswers (sound_lent store.now) store.now types.now ignore op n result }
{
    lent_hash(store, types, Sort::Op, n, ignore)
}

pub fn region_hash(store: &[u32], types: &[u32], n: u32, ignore: Ignore) -> Result<u64, Cause>
    ensures { HashAnswers (sound_lent store.now) store.now types.now ignore region n result }
{
    lent_hash(store, types, Sort::Region, n, ignore)
}

pub fn basic_block_hash(store: &[u32], types: &[u32], n: u32, ignore: Ignore) -> Result<u64, Cause>
    ensures { HashAnswers (sound_lent store.now) store.now types.now ignore block n result }
{
    lent_hash(store, types, Sort::Block, n, ignore)
}
