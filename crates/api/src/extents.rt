// How large a key will be: the three offered extents. Each refuses a buffer that is not sound, then a fragment that does not exist. No type
// is read, so no list of renamed types is lent.
ghost use Rattle.std.specs.Prelude.{◌≡◌};
ghost use Rattle.rules.specs.declared.types.Sort.TheVariants.{Op as op, Block as block, Region as region};
ghost use Rattle.rules.specs.Extents.{sized};
ghost use Rattle.layout.specs.Reading.{store_in};
ghost use Rattle.layout.specs.MarkedReading.{sound_lent};
ghost use Rattle.keys.specs.Extents.{sized_of};

use keys::measuring::sound_extent;
use keys::types::Extent;
use rules::types::{Cause, Ignore, Sort};
use validation::lent::sound_words;

// Of a buffer that may hold any words.
fn lent_extent(store: &[u32], sort: Sort, n: u32, ignore: Ignore) -> Result<Extent, Cause>
    ensures { sized_of result ≡ sized (sound_lent store.now) (store_in store.now) ignore sort n }
{
    let Some(sound) = sound_words(store) else {
        return Err(Cause::NotSound);
    };
    sound_extent(sound, sort, n, ignore)
}

pub fn operation_extent(store: &[u32], n: u32, ignore: Ignore) -> Result<Extent, Cause>
    ensures { sized_of result ≡ sized (sound_lent store.now) (store_in store.now) ignore op n }
{
    lent_extent(store, Sort::Op, n, ignore)
}

pub fn basic_block_extent(store: &[u32], n: u32, ignore: Ignore) -> Result<Extent, Cause>
    ensures { sized_of result ≡ sized (sound_lent store.now) (store_in store.now) ignore block n }
{
    lent_extent(store, Sort::Block, n, ignore)
}

pub fn region_extent(store: &[u32], n: u32, ignore: Ignore) -> Result<Extent, Cause>
    ensures { sized_of result ≡ sized (sound_lent store.now) (store_in store.now) ignore region n }
{
    lent_extent(store, Sort::Region, n, ignore)
}
