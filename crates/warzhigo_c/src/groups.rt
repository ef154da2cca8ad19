// Independence of two fragments, and the twins of a store's operations: offered, on any words, and on a store that is known to be sound, with
// an index of a list of renamed types. C has no generics: a function for each sort of fragment.
ghost use Rattle.std.specs.Prelude.{true, ◌≡◌};
ghost use Rattle.rules.specs.declared.types.Sort.TheVariants as Sorts;
ghost use Rattle.rules.specs.declared.types.Sort.TheVariants.{Op as op};
ghost use Rattle.rules.specs.Independence.{independence};
ghost use Rattle.rules.specs.Grouping.{grouping};
ghost use Rattle.layout.specs.Reading.{store_in};
ghost use Rattle.layout.specs.Soundness.{IsSound};
ghost use Rattle.layout.specs.MarkedReading.{sound_lent};
ghost use Rattle.fragments.specs.Index.{list_in};
ghost use Rattle.fragments.specs.Options.{Readable};
ghost use Rattle.warzhigo_c.specs.Codes.{independence_means, grouped_means, ignoring};

use crate::answers::{Grouped, Independence, of_grouped, of_independence};
use crate::words::array;
use fragments::view::StoreView;
use grouping::finding::find_twins;
use grouping::independence::sound_independent;
use rules::types::{Ignore, Sort};

#[unsafe(no_mangle)]
pub extern "C" fn wz_operations_independent(store: &[u32], lhs: u32, rhs: u32) -> Independence
    ensures { independence (sound_lent store.now) (store_in store.now) op lhs rhs ≡ independence_means result }
{
    of_independence(api::independence::operations_independent(store, lhs, rhs))
}

#[unsafe(no_mangle)]
pub extern "C" fn wz_known_operations_independent(store: &[u32], lhs: u32, rhs: u32) -> Independence
    requires { IsSound store.now }
    ensures { independence true (store_in store.now) op lhs rhs ≡ independence_means result }
{
    of_independence(sound_independent(array(store), Sort::Op, lhs, rhs))
}

#[unsafe(no_mangle)]
pub extern "C" fn wz_basic_blocks_independent(store: &[u32], lhs: u32, rhs: u32) -> Independence
    ensures { independence (sound_lent store.now) (store_in store.now) Sorts.Block lhs rhs ≡ independence_means result }
{
    of_independence(api::independence::basic_blocks_independent(store, lhs, rhs))
}

#[unsafe(no_mangle)]
pub extern "C" fn wz_known_basic_blocks_independent(
    store: &[u32],
    lhs: u32,
    rhs: u32,
) -> Independence
    requires { IsSound store.now }
    ensures { independence true (store_in store.now) Sorts.Block lhs rhs ≡ independence_means result }
{
    of_independence(sound_independent(array(store), Sort::Block, lhs, rhs))
}

#[unsafe(no_mangle)]
pub extern "C" fn wz_regions_independent(store: &[u32], lhs: u32, rhs: u32) -> Independence
    ensures { independence (sound_lent store.now) (store_in store.now) Sorts.Region lhs rhs ≡ independence_means result }
{
    of_independence(api::independence::regions_independent(store, lhs, rhs))
}

#[unsafe(no_mangle)]
pub extern "C" fn wz_known_regions_independent(store: &[u32], lhs: u32, rhs: u32) -> Independence
    requires { IsSound store.now }
    ensures { independence true (store_in store.now) Sorts.Region lhs rhs ≡ independence_means result }
{
    of_independence(sound_independent(array(store), Sort::Region, lhs, rhs))
}

// A word for each operation.
#[unsafe(no_mangle)]
pub extern "C" fn wz_twins_of_operations(
    store: &[u32],
    types: &[u32],
    locations: bool,
    bits: u64,
    twins: &mut [u32],
) -> Grouped
    ensures { grouping (sound_lent store.now) (store_in store.now) types.now (ignoring locations bits) twins.old ≡ record { answer = grouped_means result; words = twins.new } }
{
    of_grouped(api::twins::twins_of_operations(store, types, Ignore { locations, bits }, twins))
}

#[unsafe(no_mangle)]
pub extern "C" fn wz_known_twins_of_operations(
    store: &[u32],
    index: &[u32],
    locations: bool,
    bits: u64,
    twins: &mut [u32],
) -> Grouped
    requires { Readable store.now index.now }
    ensures { grouping true (store_in store.now) (list_in index.now) (ignoring locations bits) twins.old ≡ record { answer = grouped_means result; words = twins.new } }
{
    let view = StoreView {
        store: array(store),
        index,
        ignore: Ignore { locations, bits },
    };
    of_grouped(find_twins(&view, twins))
}
