// The offered calls, on any words. C has no generics: a function for each sort of fragment.
ghost use Rattle.std.specs.Prelude.{◌≡◌};
ghost use Rattle.rules.specs.declared.types.Sort.TheVariants as Sorts;
ghost use Rattle.rules.specs.Building.{new_operation, new_block, set_attribute, set_operand};
ghost use Rattle.rules.specs.declared.types.Sort.TheVariants.{Op as op};
ghost use Rattle.rules.specs.Keys.{compare_bytes, ordering_number};
ghost use Rattle.rules.specs.Marks.{build, set_mark, go_back};
ghost use Rattle.layout.specs.MarkedReading.{sound_lent};
ghost use Rattle.api.specs.Building as building;
ghost use Rattle.api.specs.Copies as copying;
ghost use Rattle.equivalence.specs.Calls as comparing;
ghost use Rattle.rules.specs.Answers.{hashed};
ghost use Rattle.rules.specs.Extents.{sized};
ghost use Rattle.rules.specs.Runs.{repeated_run};
ghost use Rattle.layout.specs.Reading.{store_in};
ghost use Rattle.keys.specs.Calls as keys;
ghost use Rattle.warzhigo_c.specs.Codes.{verdict_means, sum_means, key_answer_means, extent_answer_means, run_means, outcome_means, ignoring, parent_from, owner_from, attribute_from};

use crate::answers::{
    ExtentAnswer, HashAnswer, KeyAnswer, Outcome, RunAnswer, Verdict, of_done, of_extent, of_hash,
    of_key, of_made, of_run, of_verdict, owner, parent,
};
use keys::order::compare_keys;
use rules::types::{Attribute, Ignore};
use std::cmp::Ordering;

#[unsafe(no_mangle)]
pub extern "C" fn wz_is_sound(store: &[u32]) -> bool
    ensures { result ≡ sound_lent store.now }
{
    validation::lent::is_sound(store)
}

#[unsafe(no_mangle)]
pub extern "C" fn wz_new_operation(
    store: &mut [u32],
    kind: u32,
    placed: bool,
    block: u32,
    location: u32,
    regions: u32,
    types: &[u32],
    operands: &[u32],
    successors: &[u32],
) -> Outcome
    ensures { building.CallAnswers store.old store.new (build (new_operation (record {
      kind = kind;
      parent = parent_from placed block;
      location = location;
      regions = regions;
      types = types.now;
      operands = operands.now;
      successors = successors.now;
    }))) (outcome_means result) }
{
    of_made(api::building::new_operation(
        store,
        kind,
        parent(placed, block),
        location,
        regions,
        types,
        operands,
        successors,
    ))
}

#[unsafe(no_mangle)]
pub extern "C" fn wz_new_block(
    store: &mut [u32],
    region: u32,
    location: u32,
    types: &[u32],
) -> Outcome
    ensures { building.CallAnswers store.old store.new (build (new_block (record {
      region = region;
      location = location;
      types = types.now;
    }))) (outcome_means result) }
{
    of_made(api::building::new_block(store, region, location, types))
}

#[unsafe(no_mangle)]
pub extern "C" fn wz_set_attribute(
    store: &mut [u32],
    blocks: bool,
    n: u32,
    key: u32,
    kind: u32,
    content: u32,
    inherent: u32,
) -> Outcome
    ensures { building.CallAnswers store.old store.new (build (set_attribute (owner_from blocks n) (attribute_from key kind content inherent))) (outcome_means result) }
{
    of_done(api::building::set_attribute(
        store,
        owner(blocks, n),
        Attribute {
            key,
            kind,
            content,
            inherent: inherent != 0,
        },
    ))
}

#[unsafe(no_mangle)]
pub extern "C" fn wz_set_operand(store: &mut [u32], n: u32, i: u32, v: u32) -> Outcome
    ensures { building.CallAnswers store.old store.new (build (set_operand (record { operation = n; index = i; value = v }))) (outcome_means result) }
{
    of_done(api::building::set_operand(store, n, i, v))
}

#[unsafe(no_mangle)]
pub extern "C" fn wz_set_mark(store: &mut [u32], mark: u32) -> Outcome
    ensures { building.CallAnswers store.old store.new (set_mark mark) (outcome_means result) }
{
    of_done(api::building::set_mark(store, mark))
}

#[unsafe(no_mangle)]
pub extern "C" fn wz_go_back(store: &mut [u32], mark: u32) -> Outcome
    ensures { building.CallAnswers store.old store.new (go_back mark) (outcome_means result) }
{
    of_done(api::building::go_back(store, mark))
}

#[unsafe(no_mangle)]
pub extern "C" fn wz_clone_operation(
    store: &mut [u32],
    n: u32,
    placed: bool,
    block: u32,
    mapping: &mut [u32],
) -> Outcome
    ensures { copying.CopyAnswers store.old store.new mapping.old mapping.new n (parent_from placed block) (outcome_means result) }
{
    of_made(api::copies::clone_operation(store, n, parent(placed, block), mapping))
}

#[unsafe(no_mangle)]
pub extern "C" fn wz_operation_eq(
    store: &[u32],
    types: &[u32],
    mapping: &mut [u32],
    lhs: u32,
    rhs: u32,
    locations: bool,
    bits: u64,
) -> Verdict
    ensures { comparing.ComparisonAnswers (sound_lent store.now) store.now types.now mapping.old mapping.new (ignoring locations bits) op lhs rhs (verdict_means result) }
{
    of_verdict(api::equality::operation_eq(
        store,
        types,
        mapping,
        lhs,
        rhs,
        Ignore { locations, bits },
    ))
}

#[unsafe(no_mangle)]
pub extern "C" fn wz_operation_hash(
    store: &[u32],
    types: &[u32],
    n: u32,
    locations: bool,
    bits: u64,
) -> HashAnswer
    ensures { hashed (sound_lent store.now) (store_in store.now) types.now (ignoring locations bits) op n ≡ sum_means result }
{
    of_hash(api::hashes::operation_hash(store, types, n, Ignore { locations, bits }))
}

#[unsafe(no_mangle)]
pub extern "C" fn wz_basic_block_eq(
    store: &[u32],
    types: &[u32],
    mapping: &mut [u32],
    lhs: u32,
    rhs: u32,
    locations: bool,
    bits: u64,
) -> Verdict
    ensures { comparing.ComparisonAnswers (sound_lent store.now) store.now types.now mapping.old mapping.new (ignoring locations bits) Sorts.Block lhs rhs (verdict_means result) }
{
    of_verdict(api::equality::basic_block_eq(
        store,
        types,
        mapping,
        lhs,
        rhs,
        Ignore { locations, bits },
    ))
}

#[unsafe(no_mangle)]
pub extern "C" fn wz_basic_block_hash(
    store: &[u32],
    types: &[u32],
    n: u32,
    locations: bool,
    bits: u64,
) -> HashAnswer
    ensures { hashed (sound_lent store.now) (store_in store.now) types.now (ignoring locations bits) Sorts.Block n ≡ sum_means result }
{
    of_hash(api::hashes::basic_block_hash(store, types, n, Ignore { locations, bits }))
}

#[unsafe(no_mangle)]
pub extern "C" fn wz_region_eq(
    store: &[u32],
    types: &[u32],
    mapping: &mut [u32],
    lhs: u32,
    rhs: u32,
    locations: bool,
    bits: u64,
) -> Verdict
    ensures { comparing.ComparisonAnswers (sound_lent store.now) store.now types.now mapping.old mapping.new (ignoring locations bits) Sorts.Region lhs rhs (verdict_means result) }
{
    of_verdict(api::equality::region_eq(
        store,
        types,
        mapping,
        lhs,
        rhs,
        Ignore { locations, bits },
    ))
}

#[unsafe(no_mangle)]
pub extern "C" fn wz_region_hash(
    store: &[u32],
    types: &[u32],
    n: u32,
    locations: bool,
    bits: u64,
) -> HashAnswer
    ensures { hashed (sound_lent store.now) (store_in store.now) types.now (ignoring locations bits) Sorts.Region n ≡ sum_means result }
{
    of_hash(api::hashes::region_hash(store, types, n, Ignore { locations, bits }))
}

#[unsafe(no_mangle)]
pub extern "C" fn wz_operation_key(
    store: &[u32],
    types: &[u32],
    key: &mut [u8],
    n: u32,
    locations: bool,
    bits: u64,
) -> KeyAnswer
    ensures { keys.KeyAnswers (sound_lent store.now) store.now types.now (ignoring locations bits) op n key.old key.new (key_answer_means result) }
{
    of_key(api::fragment_keys::operation_key(store, types, key, n, Ignore { locations, bits }))
}

#[unsafe(no_mangle)]
pub extern "C" fn wz_basic_block_key(
    store: &[u32],
    types: &[u32],
    key: &mut [u8],
    n: u32,
    locations: bool,
    bits: u64,
) -> KeyAnswer
    ensures { keys.KeyAnswers (sound_lent store.now) store.now types.now (ignoring locations bits) Sorts.Block n key.old key.new (key_answer_means result) }
{
    of_key(api::fragment_keys::basic_block_key(store, types, key, n, Ignore { locations, bits }))
}

#[unsafe(no_mangle)]
pub extern "C" fn wz_region_key(
    store: &[u32],
    types: &[u32],
    key: &mut [u8],
    n: u32,
    locations: bool,
    bits: u64,
) -> KeyAnswer
    ensures { keys.KeyAnswers (sound_lent store.now) store.now types.now (ignoring locations bits) Sorts.Region n key.old key.new (key_answer_means result) }
{
    of_key(api::fragment_keys::region_key(store, types, key, n, Ignore { locations, bits }))
}

#[unsafe(no_mangle)]
pub extern "C" fn wz_operation_extent(
    store: &[u32],
    n: u32,
    locations: bool,
    bits: u64,
) -> ExtentAnswer
    ensures { extent_answer_means result ≡ sized (sound_lent store.now) (store_in store.now) (ignoring locations bits) op n }
{
    of_extent(api::extents::operation_extent(store, n, Ignore { locations, bits }))
}

#[unsafe(no_mangle)]
pub extern "C" fn wz_basic_block_extent(
    store: &[u32],
    n: u32,
    locations: bool,
    bits: u64,
) -> ExtentAnswer
    ensures { extent_answer_means result ≡ sized (sound_lent store.now) (store_in store.now) (ignoring locations bits) Sorts.Block n }
{
    of_extent(api::extents::basic_block_extent(store, n, Ignore { locations, bits }))
}

#[unsafe(no_mangle)]
pub extern "C" fn wz_region_extent(
    store: &[u32],
    n: u32,
    locations: bool,
    bits: u64,
) -> ExtentAnswer
    ensures { extent_answer_means result ≡ sized (sound_lent store.now) (store_in store.now) (ignoring locations bits) Sorts.Region n }
{
    of_extent(api::extents::region_extent(store, n, Ignore { locations, bits }))
}

// Two equal runs of operations in a block.
#[unsafe(no_mangle)]
pub extern "C" fn wz_repeated_run(
    store: &[u32],
    types: &[u32],
    block: u32,
    length: u32,
    locations: bool,
    bits: u64,
) -> RunAnswer
    ensures { repeated_run (sound_lent store.now) (store_in store.now) types.now (ignoring locations bits) block length ≡ run_means result }
{
    of_run(api::runs::repeated_run(store, types, block, length, Ignore { locations, bits }))
}

// Any bytes compare; nothing is refused.
#[unsafe(no_mangle)]
pub extern "C" fn wz_compare_keys(lhs: &[u8], rhs: &[u8]) -> i32
    ensures { result ≡ ordering_number (compare_bytes lhs.now rhs.now) }
{
    let order = compare_keys(lhs, rhs);
    match order {
        Ordering::Less => -1,
        Ordering::Equal => 0,
        Ordering::Greater => 1,
    }
}
