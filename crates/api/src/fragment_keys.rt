// The three offered keys: each refuses a buffer that is not sound, then a list of renamed types that does not hold, and then writes its
// fragment's key.
ghost use Rattle.rules.specs.declared.types.Sort.TheVariants.{Op as op, Block as block, Region as region};
ghost use Rattle.layout.specs.MarkedReading.{sound_lent};
ghost use Rattle.keys.specs.Calls.{keyed_of, KeyAnswers};

use fragments::indexing::{INDEX_LENGTH, index_types};
use keys::keys::fragment_key;
use rules::types::{Cause, Ignore, Sort};
use validation::lent::sound_words;

// Write the key of a fragment of one sort, of a buffer and under a list of types that may hold any words. An empty list is its own index.
fn lent_key(
    store: &[u32],
    types: &[u32],
    key: &mut [u8],
    sort: Sort,
    n: u32,
    ignore: Ignore,
) -> Result<u32, Cause>
    ensures { KeyAnswers (sound_lent store.now) store.now types.now ignore sort n key.old key.new (keyed_of result) }
{
    let Some(sound) = sound_words(store) else {
        return Err(Cause::NotSound);
    };
    if types.is_empty() {
        return fragment_key(sound, types, key, sort, n, ignore);
    }
    let mut index = [0; INDEX_LENGTH];
    let words = index_types(types, &mut index).ok_or(Cause::BadTypes)?;
    fragment_key(sound, &index[..words], key, sort, n, ignore)
}

pub fn operation_key(
    store: &[u32],
    types: &[u32],
    key: &mut [u8],
    n: u32,
    ignore: Ignore,
) -> Result<u32, Cause>
    ensures { KeyAnswers (sound_lent store.now) store.now types.now ignore op n key.old key.new (keyed_of result) }
{
    lent_key(store, types, key, Sort::Op, n, ignore)
}

pub fn region_key(
    store: &[u32],
    types: &[u32],
    key: &mut [u8],
    n: u32,
    ignore: Ignore,
) -> Result<u32, Cause>
    ensures { KeyAnswers (sound_lent store.now) store.now types.now ignore region n key.old key.new (keyed_of result) }
{
    lent_key(store, types, key, Sort::Region, n, ignore)
}

pub fn basic_block_key(
    store: &[u32],
    types: &[u32],
    key: &mut [u8],
    n: u32,
    ignore: Ignore,
) -> Result<u32, Cause>
    ensures { KeyAnswers (sound_lent store.now) store.now types.now ignore block n key.old key.new (keyed_of result) }
{
    lent_key(store, types, key, Sort::Block, n, ignore)
}
