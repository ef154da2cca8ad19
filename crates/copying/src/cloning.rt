// The call on a lent buffer, with an allowed mapping: everything is tested before the first word is written.
ghost use Rattle.std.specs.Prelude.{◌≡◌, ◌<◌, true};
ghost use Rattle.rules.specs.Building.{first_failed};
ghost use Rattle.rules.specs.Store.{parent_exists};
ghost use Rattle.rules.specs.Copying.{copy_tests};
ghost use Rattle.rules.specs.Mapping.{allowed};
ghost use Rattle.rules.specs.Causes.{cause_of};
ghost use Rattle.layout.specs.Columns.{columns};
ghost use Rattle.layout.specs.Reading.{op_count, store_in};
ghost use Rattle.mutation.specs.Types.{made_of};
ghost use Rattle.equivalence.specs.MappingWords.{mapping_of};
ghost use Rattle.layout.specs.MarkedReading.{IsLent};
ghost use Rattle.copying.specs.Cloned.{Cloned};

use crate::early::in_time;
use crate::images::enter_copies;
use crate::inside::placed_outside;
use crate::nesting::copy_nests;
use crate::original::Original;
use crate::steps::list_steps;
use crate::totals::copy_totals_hold;
use crate::writing::write_copies;
use equivalence::mapping::MappingWords;
use layout::columns::{COUNTS, OPS, StoreWords, at};
use layout::existing::op_exists;
use mutation::tests::parent_exists;
use rules::types::Cause;

// Is a copy of an operation that exists refused? The tests past the first two.
fn copy_cause(original: &Original, parent: Option<u32>) -> Result<(), Cause>
    requires { parent_exists (store_in original.now.store.now) parent ≡ true }
    ensures { cause_of result ≡ first_failed (copy_tests (store_in original.now.store.now) original.now.n parent) }
{
    if !placed_outside(original.store, original.n, parent) {
        return Err(Cause::PlacedInside);
    }
    if !in_time(original) {
        return Err(Cause::NamedEarly);
    }
    if !copy_nests(original, parent) {
        return Err(Cause::TooDeep);
    }
    if !copy_totals_hold(original) {
        return Err(Cause::StoreFull);
    }
    Ok(())
}

// Operation and parent exist.
fn copy_known(
    store: &mut StoreWords,
    mapping: &mut MappingWords,
    n: usize,
    parent: Option<u32>,
) -> Result<u32, Cause>
    requires lent { IsLent store.old }
    requires mapping_value { allowed (store_in store.old) (mapping_of mapping.old) ≡ true }
    requires n_bound { n < op_count (columns store.old) }
    requires parent_value { parent_exists (store_in store.old) parent ≡ true }
    ensures { Cloned true store.old store.new mapping.old mapping.new n parent (made_of result) }
{
    let walk = list_steps(store, n);
    let steps = walk.as_slice();
    let original = Original { store, n, steps };
    copy_cause(&original, parent)?;
    let copy = at(store, COUNTS, OPS);
    enter_copies(&original, mapping);
    write_copies(store, mapping, n, parent, steps);
    Ok(copy)
}

pub fn clone_operation(
    store: &mut StoreWords,
    op: u32,
    parent: Option<u32>,
    mapping: &mut MappingWords,
) -> Result<u32, Cause>
    requires lent { IsLent store.old }
    requires mapping_value { allowed (store_in store.old) (mapping_of mapping.old) ≡ true }
    ensures { Cloned true store.old store.new mapping.old mapping.new op parent (made_of result) }
{
    if !op_exists(store, op) || !parent_exists(store, parent) {
        return Err(Cause::NotThere);
    }
    copy_known(store, mapping, op as usize, parent)
}
