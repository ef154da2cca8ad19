// The offered call: it refuses a buffer that is not sound and a list of renamed types that does not hold, and then searches. The list is lent
// as flat words: old type, present type, old type, present type.
ghost use Rattle.layout.specs.Soundness.{IsSound};
ghost use Rattle.std.specs.Prelude.{true};
ghost use Rattle.layout.specs.MarkedReading.{sound_lent};
ghost use Rattle.repeated_runs.specs.Calls.{RunAnswers};

use fragments::indexing::{INDEX_LENGTH, index_types};
use fragments::view::StoreView;
use layout::columns::StoreWords;
use repeated_runs::finding::block_runs;
use repeated_runs::types::Starts;
use rules::types::{Cause, Ignore};
use validation::lent::sound_words;

// Search a block of a sound store, with the list of types tested and indexed first.
fn indexed_runs(
    store: &StoreWords,
    types: &[u32],
    block: u32,
    length: u32,
    ignore: Ignore,
) -> Result<Option<Starts>, Cause>
    requires { IsSound store.now }
    ensures { RunAnswers true store.now types.now ignore block length result }
{
    let mut index = [0; INDEX_LENGTH];
    let words = index_types(types, &mut index).ok_or(Cause::BadTypes)?;
    let view = StoreView {
        store,
        index: &index[..words],
        ignore,
    };
    block_runs(&view, block, length)
}

// The first two equal runs of `length` operations of a block that do not overlap, in a buffer that may hold any words. No words are the index
// of the empty list.
pub fn repeated_run(
    store: &[u32],
    types: &[u32],
    block: u32,
    length: u32,
    ignore: Ignore,
) -> Result<Option<Starts>, Cause>
    ensures { RunAnswers (sound_lent store.now) store.now types.now ignore block length result }
{
    let Some(words) = sound_words(store) else {
        return Err(Cause::NotSound);
    };
    if types.is_empty() {
        let view = StoreView {
            store: words,
            index: types,
            ignore,
        };
        return block_runs(&view, block, length);
    }
    indexed_runs(words, types, block, length, ignore)
}
