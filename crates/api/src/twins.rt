// The twins of a store's operations: the offered call. It refuses a buffer that is not sound, a list of renamed types that does not hold, and lent
// words that are too few.
ghost use Rattle.std.specs.Prelude.{true};
ghost use Rattle.layout.specs.Soundness.{IsSound};
ghost use Rattle.layout.specs.MarkedReading.{sound_lent};
ghost use Rattle.grouping.specs.Calls.{TwinsAnswers};

use fragments::indexing::{INDEX_LENGTH, index_types};
use fragments::view::StoreView;
use grouping::finding::find_twins;
use layout::columns::StoreWords;
use rules::types::{Cause, Ignore};
use validation::lent::sound_words;

// The twins of a sound store, with the list of types tested and indexed first.
fn indexed_twins(
    store: &StoreWords,
    types: &[u32],
    ignore: Ignore,
    twins: &mut [u32],
) -> Result<usize, Cause>
    requires { IsSound store.now }
    ensures { TwinsAnswers true store.now types.now ignore twins.old twins.new result }
{
    let mut index = [0; INDEX_LENGTH];
    let words = index_types(types, &mut index).ok_or(Cause::BadTypes)?;
    let view = StoreView {
        store,
        index: &index[..words],
        ignore,
    };
    find_twins(&view, twins)
}

// For each operation of a buffer that may hold any words the first operation before it that is independent of it and equal to it, or NO_TWIN: in
// the first words of the lent ones. No words of types are the index of the empty list.
pub fn twins_of_operations(
    store: &[u32],
    types: &[u32],
    ignore: Ignore,
    twins: &mut [u32],
) -> Result<usize, Cause>
    ensures { TwinsAnswers (sound_lent store.now) store.now types.now ignore twins.old twins.new result }
{
    let Some(words) = sound_words(store) else {
        return Err(Cause::NotSound);
    };
    if types.is_empty() {
        let view = StoreView {
            store: words,
            index: types,
            ignore,
        };
        return find_twins(&view, twins);
    }
    indexed_twins(words, types, ignore, twins)
}
