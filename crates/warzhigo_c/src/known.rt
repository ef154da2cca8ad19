// The calls on a store that is known to be sound, with an index of a list of renamed types, and with a mapping that is known to be allowed:
// none of them is tested. C has no generics: a function for each sort of fragment. Those that change a store ask for the tables of its marks to be sound too (`IsLent`), and leave them so.
ghost use Rattle.std.specs.Prelude.{true, ◌≡◌, length};
ghost use Rattle.rules.specs.declared.types.Sort.TheVariants as Sorts;
ghost use Rattle.rules.specs.Mapping.{allowed};
ghost use Rattle.rules.specs.Types.{renamed};
ghost use Rattle.rules.specs.Entered.{EnteredBy};
ghost use Rattle.layout.specs.Columns.{columns};
ghost use Rattle.layout.specs.Reading.{store_in};
ghost use Rattle.layout.specs.MarkedReading.{marks_hold_in, IsLent};
ghost use Rattle.equivalence.specs.MappingWords.{mapping_length, mapping_of};
ghost use Rattle.equivalence.specs.Unmapping.{EntriesIn};
ghost use Rattle.rules.specs.Building.{new_operation, new_block, set_attribute, set_operand};
ghost use Rattle.rules.specs.Fragments.{exists};
ghost use Rattle.rules.specs.declared.types.Sort.TheVariants.{Op as op};
ghost use Rattle.rules.specs.Keys;
ghost use Rattle.layout.specs.Soundness.{IsSound};
ghost use Rattle.fragments.specs.Index.{list_in, Indexes, index_length};
ghost use Rattle.fragments.specs.Options.{Readable};
ghost use Rattle.rules.specs.Marks.{build, set_mark, go_back};
ghost use Rattle.undo_log.specs.MarkedCalls.{PerformsMarked};
ghost use Rattle.copying.specs.Cloned.{Cloned};
ghost use Rattle.equivalence.specs.Calls as comparing;
ghost use Rattle.rules.specs.Answers.{hashed};
ghost use Rattle.rules.specs.Extents.{sized};
ghost use Rattle.rules.specs.Runs.{repeated_run};
ghost use Rattle.keys.specs.Calls as keys;
ghost use Rattle.warzhigo_c.specs.Codes.{entries_mean, index_means, verdict_means, sum_means, key_answer_means, extent_answer_means, run_means, outcome_means, ignoring, parent_from, owner_from, attribute_from};

use crate::answers::{
    Entries, ExtentAnswer, HashAnswer, KeyAnswer, Outcome, RunAnswer, Verdict, of_done, of_entries,
    of_extent, of_hash, of_key, of_made, of_run, of_verdict, owner, parent,
};
use crate::words::{array, array_mut};
use equivalence::comparison::{fragments_eq, operations_eq};
use equivalence::types::Fragments;
use equivalence::unmapping::entered;
use fragments::indexing::index_types;
use fragments::view::StoreView;
use hashing::hashes::fragment_hash;
use keys::keys::{fragment_key, key_length};
use keys::measuring::sound_extent;
use mutation::types::OpFields;
use repeated_runs::finding::block_runs;
use rules::types::{Attribute, Ignore, Sort};

// The test of a mapping that is to be lent beside this store.
#[unsafe(no_mangle)]
pub extern "C" fn wz_known_is_allowed(store: &[u32], mapping: &[u32]) -> bool
    requires { IsSound store.now }
    ensures { result ≡ allowed (store_in store.now) (mapping_of mapping.now) }
{
    equivalence::mapping::is_allowed(array(store), mapping)
}

// The test of the marks and the journal of a store whose tables are known to be sound.
#[unsafe(no_mangle)]
pub extern "C" fn wz_known_marks_are_sound(store: &[u32]) -> bool
    requires { IsSound store.now }
    ensures { result ≡ marks_hold_in (columns store.now) }
{
    validation::lent::marks_are_sound(array(store))
}

// Tests a list of renamed types, and makes the index of it that the calls below are lent as `types`: it is as many of these words as the
// answer says, which is 0, as C has no Option, for a list that is refused (by 14). No words are the index of the empty list.
#[unsafe(no_mangle)]
pub extern "C" fn wz_known_index_types(types: &[u32], index: &mut [u32]) -> usize
    requires { length index.old ≡ index_length }
    ensures { Indexes types.now index.new (index_means result) }
{
    index_types(types, index).unwrap_or(0)
}

// 0 is an operation, 1 a block, any other a region.
fn sort_from(sort: u32) -> Sort {
    match sort {
        0 => Sort::Op,
        1 => Sort::Block,
        _ => Sort::Region,
    }
}

// Where the entries are that a comparison has made in an empty mapping; `sort` and `lhs` are of its left fragment, and only time depends on
// them, `paired` is its count.
#[unsafe(no_mangle)]
pub extern "C" fn wz_known_entered(
    store: &[u32],
    mapping: &[u32],
    sort: u32,
    lhs: u32,
    paired: u32,
) -> Entries
    requires sound { IsSound store.now }
    requires mapping_len { length mapping.now ≡ mapping_length }
    requires entered_by { EnteredBy (store_in store.now) (mapping_of mapping.now) paired }
    ensures { EntriesIn mapping.now (entries_mean result) }
{
    of_entries(entered(array(store), array(mapping), sort_from(sort), lhs, paired))
}

#[unsafe(no_mangle)]
pub extern "C" fn wz_known_new_operation(
    store: &mut [u32],
    kind: u32,
    placed: bool,
    block: u32,
    location: u32,
    regions: u32,
    types: &[u32],
    operands: &[u32],
    successors: &[u32],
) -> Outcome
    requires { IsLent store.old }
    ensures { PerformsMarked store.old store.new (build (new_operation (record {
      kind = kind;
      parent = parent_from placed block;
      location = location;
      regions = regions;
      types = types.now;
      operands = operands.now;
      successors = successors.now;
    }))) (outcome_means result) }
{
    let fields = OpFields {
        kind,
        parent: parent(placed, block),
        location,
        regions,
    };
    of_made(undo_log::adding_calls::new_operation(
        array_mut(store),
        fields,
        types,
        operands,
        successors,
    ))
}

#[unsafe(no_mangle)]
pub extern "C" fn wz_known_new_block(
    store: &mut [u32],
    region: u32,
    location: u32,
    types: &[u32],
) -> Outcome
    requires { IsLent store.old }
    ensures { PerformsMarked store.old store.new (build (new_block (record {
      region = region;
      location = location;
      types = types.now;
    }))) (outcome_means result) }
{
    of_made(undo_log::adding_calls::new_block(array_mut(store), region, location, types))
}

#[unsafe(no_mangle)]
pub extern "C" fn wz_known_set_attribute(
    store: &mut [u32],
    blocks: bool,
    n: u32,
    key: u32,
    kind: u32,
    content: u32,
    inherent: u32,
) -> Outcome
    requires { IsLent store.old }
    ensures { PerformsMarked store.old store.new (build (set_attribute (owner_from blocks n) (attribute_from key kind content inherent))) (outcome_means result) }
{
    of_done(undo_log::attributes::set_attribute(
        array_mut(store),
        owner(blocks, n),
        Attribute {
            key,
            kind,
            content,
            inherent: inherent != 0,
        },
    ))
}

#[unsafe(no_mangle)]
pub extern "C" fn wz_known_set_operand(store: &mut [u32], n: u32, i: u32, v: u32) -> Outcome
    requires { IsLent store.old }
    ensures { PerformsMarked store.old store.new (build (set_operand (record { operation = n; index = i; value = v }))) (outcome_means result) }
{
    of_done(undo_log::operands::set_operand(array_mut(store), n, i, v))
}

#[unsafe(no_mangle)]
pub extern "C" fn wz_known_set_mark(store: &mut [u32], mark: u32) -> Outcome
    requires { IsLent store.old }
    ensures { PerformsMarked store.old store.new (set_mark mark) (outcome_means result) }
{
    of_done(undo_log::marking::set_mark(array_mut(store), mark))
}

#[unsafe(no_mangle)]
pub extern "C" fn wz_known_go_back(store: &mut [u32], mark: u32) -> Outcome
    requires { IsLent store.old }
    ensures { PerformsMarked store.old store.new (go_back mark) (outcome_means result) }
{
    of_done(undo_log::going_back::go_back(array_mut(store), mark))
}

#[unsafe(no_mangle)]
pub extern "C" fn wz_known_clone_operation(
    store: &mut [u32],
    n: u32,
    placed: bool,
    block: u32,
    mapping: &mut [u32],
) -> Outcome
    requires lent { IsLent store.old }
    requires mapping_value { allowed (store_in store.old) (mapping_of mapping.old) ≡ true }
    ensures { Cloned true store.old store.new mapping.old mapping.new n (parent_from placed block) (outcome_means result) }
{
    of_made(copying::cloning::clone_operation(
        array_mut(store),
        n,
        parent(placed, block),
        array_mut(mapping),
    ))
}

#[unsafe(no_mangle)]
pub extern "C" fn wz_known_operation_eq(
    store: &[u32],
    index: &[u32],
    mapping: &mut [u32],
    lhs: u32,
    rhs: u32,
    locations: bool,
    bits: u64,
) -> Verdict
    requires readable { Readable store.now index.now }
    requires mapping_value { allowed (store_in store.now) (mapping_of mapping.old) ≡ true }
    ensures { comparing.ComparisonAnswers true store.now (list_in index.now) mapping.old mapping.new (ignoring locations bits) op lhs rhs (verdict_means result) }
{
    let view = StoreView {
        store: array(store),
        index,
        ignore: Ignore { locations, bits },
    };
    of_verdict(operations_eq(&view, array_mut(mapping), lhs, rhs))
}

#[unsafe(no_mangle)]
pub extern "C" fn wz_known_operation_hash(
    store: &[u32],
    index: &[u32],
    n: u32,
    locations: bool,
    bits: u64,
) -> HashAnswer
    requires { Readable store.now index.now }
    ensures { hashed true (store_in store.now) (list_in index.now) (ignoring locations bits) op n ≡ sum_means result }
{
    let view = StoreView {
        store: array(store),
        index,
        ignore: Ignore { locations, bits },
    };
    of_hash(fragment_hash(&view, Sort::Op, n))
}

#[unsafe(no_mangle)]
pub extern "C" fn wz_known_basic_block_eq(
    store: &[u32],
    index: &[u32],
    mapping: &mut [u32],
    lhs: u32,
    rhs: u32,
    locations: bool,
    bits: u64,
) -> Verdict
    requires readable { Readable store.now index.now }
    requires mapping_value { allowed (store_in store.now) (mapping_of mapping.old) ≡ true }
    ensures { comparing.ComparisonAnswers true store.now (list_in index.now) mapping.old mapping.new (ignoring locations bits) Sorts.Block lhs rhs (verdict_means result) }
{
    let view = StoreView {
        store: array(store),
        index,
        ignore: Ignore { locations, bits },
    };
    let of = Fragments {
        sort: Sort::Block,
        lhs,
        rhs,
    };
    of_verdict(fragments_eq(&view, array_mut(mapping), of))
}

#[unsafe(no_mangle)]
pub extern "C" fn wz_known_basic_block_hash(
    store: &[u32],
    index: &[u32],
    n: u32,
    locations: bool,
    bits: u64,
) -> HashAnswer
    requires { Readable store.now index.now }
    ensures { hashed true (store_in store.now) (list_in index.now) (ignoring locations bits) Sorts.Block n ≡ sum_means result }
{
    let view = StoreView {
        store: array(store),
        index,
        ignore: Ignore { locations, bits },
    };
    of_hash(fragment_hash(&view, Sort::Block, n))
}

#[unsafe(no_mangle)]
pub extern "C" fn wz_known_region_eq(
    store: &[u32],
    index: &[u32],
    mapping: &mut [u32],
    lhs: u32,
    rhs: u32,
    locations: bool,
    bits: u64,
) -> Verdict
    requires readable { Readable store.now index.now }
    requires mapping_value { allowed (store_in store.now) (mapping_of mapping.old) ≡ true }
    ensures { comparing.ComparisonAnswers true store.now (list_in index.now) mapping.old mapping.new (ignoring locations bits) Sorts.Region lhs rhs (verdict_means result) }
{
    let view = StoreView {
        store: array(store),
        index,
        ignore: Ignore { locations, bits },
    };
    let of = Fragments {
        sort: Sort::Region,
        lhs,
        rhs,
    };
    of_verdict(fragments_eq(&view, array_mut(mapping), of))
}

#[unsafe(no_mangle)]
pub extern "C" fn wz_known_region_hash(
    store: &[u32],
    index: &[u32],
    n: u32,
    locations: bool,
    bits: u64,
) -> HashAnswer
    requires { Readable store.now index.now }
    ensures { hashed true (store_in store.now) (list_in index.now) (ignoring locations bits) Sorts.Region n ≡ sum_means result }
{
    let view = StoreView {
        store: array(store),
        index,
        ignore: Ignore { locations, bits },
    };
    of_hash(fragment_hash(&view, Sort::Region, n))
}

#[unsafe(no_mangle)]
pub extern "C" fn wz_known_operation_key(
    store: &[u32],
    index: &[u32],
    key: &mut [u8],
    n: u32,
    locations: bool,
    bits: u64,
) -> KeyAnswer
    requires { Readable store.now index.now }
    ensures { keys.KeyAnswers true store.now (list_in index.now) (ignoring locations bits) op n key.old key.new (key_answer_means result) }
{
    of_key(fragment_key(
        array(store),
        index,
        key,
        Sort::Op,
        n,
        Ignore { locations, bits },
    ))
}

// How long the key will be, of an operation that exists.
#[unsafe(no_mangle)]
pub extern "C" fn wz_known_operation_key_length(
    store: &[u32],
    index: &[u32],
    n: u32,
    locations: bool,
    bits: u64,
) -> usize
    requires readable { Readable store.now index.now }
    requires n_value { exists (store_in store.now) op n ≡ true }
    ensures { result ≡ length (Keys.key (renamed (list_in index.now) (store_in store.now)) (ignoring locations bits) op n) }
{
    key_length(
        array(store),
        Sort::Op,
        n as usize,
        Ignore { locations, bits },
    )
}

#[unsafe(no_mangle)]
pub extern "C" fn wz_known_basic_block_key(
    store: &[u32],
    index: &[u32],
    key: &mut [u8],
    n: u32,
    locations: bool,
    bits: u64,
) -> KeyAnswer
    requires { Readable store.now index.now }
    ensures { keys.KeyAnswers true store.now (list_in index.now) (ignoring locations bits) Sorts.Block n key.old key.new (key_answer_means result) }
{
    of_key(fragment_key(
        array(store),
        index,
        key,
        Sort::Block,
        n,
        Ignore { locations, bits },
    ))
}

// How long the key will be, of a block that exists.
#[unsafe(no_mangle)]
pub extern "C" fn wz_known_basic_block_key_length(
    store: &[u32],
    index: &[u32],
    n: u32,
    locations: bool,
    bits: u64,
) -> usize
    requires readable { Readable store.now index.now }
    requires n_value { exists (store_in store.now) Sorts.Block n ≡ true }
    ensures { result ≡ length (Keys.key (renamed (list_in index.now) (store_in store.now)) (ignoring locations bits) Sorts.Block n) }
{
    key_length(
        array(store),
        Sort::Block,
        n as usize,
        Ignore { locations, bits },
    )
}

#[unsafe(no_mangle)]
pub extern "C" fn wz_known_region_key(
    store: &[u32],
    index: &[u32],
    key: &mut [u8],
    n: u32,
    locations: bool,
    bits: u64,
) -> KeyAnswer
    requires { Readable store.now index.now }
    ensures { keys.KeyAnswers true store.now (list_in index.now) (ignoring locations bits) Sorts.Region n key.old key.new (key_answer_means result) }
{
    of_key(fragment_key(
        array(store),
        index,
        key,
        Sort::Region,
        n,
        Ignore { locations, bits },
    ))
}

// How long the key will be, of a region that exists.
#[unsafe(no_mangle)]
pub extern "C" fn wz_known_region_key_length(
    store: &[u32],
    index: &[u32],
    n: u32,
    locations: bool,
    bits: u64,
) -> usize
    requires readable { Readable store.now index.now }
    requires n_value { exists (store_in store.now) Sorts.Region n ≡ true }
    ensures { result ≡ length (Keys.key (renamed (list_in index.now) (store_in store.now)) (ignoring locations bits) Sorts.Region n) }
{
    key_length(
        array(store),
        Sort::Region,
        n as usize,
        Ignore { locations, bits },
    )
}

// How large the key will be, and what the fragment holds.
#[unsafe(no_mangle)]
pub extern "C" fn wz_known_operation_extent(
    store: &[u32],
    n: u32,
    locations: bool,
    bits: u64,
) -> ExtentAnswer
    requires { IsSound store.now }
    ensures { extent_answer_means result ≡ sized true (store_in store.now) (ignoring locations bits) op n }
{
    of_extent(sound_extent(array(store), Sort::Op, n, Ignore { locations, bits }))
}

#[unsafe(no_mangle)]
pub extern "C" fn wz_known_basic_block_extent(
    store: &[u32],
    n: u32,
    locations: bool,
    bits: u64,
) -> ExtentAnswer
    requires { IsSound store.now }
    ensures { extent_answer_means result ≡ sized true (store_in store.now) (ignoring locations bits) Sorts.Block n }
{
    of_extent(sound_extent(array(store), Sort::Block, n, Ignore { locations, bits }))
}

#[unsafe(no_mangle)]
pub extern "C" fn wz_known_region_extent(
    store: &[u32],
    n: u32,
    locations: bool,
    bits: u64,
) -> ExtentAnswer
    requires { IsSound store.now }
    ensures { extent_answer_means result ≡ sized true (store_in store.now) (ignoring locations bits) Sorts.Region n }
{
    of_extent(sound_extent(array(store), Sort::Region, n, Ignore { locations, bits }))
}

// Two equal runs of operations in a block.
#[unsafe(no_mangle)]
pub extern "C" fn wz_known_repeated_run(
    store: &[u32],
    index: &[u32],
    block: u32,
    length: u32,
    locations: bool,
    bits: u64,
) -> RunAnswer
    requires { Readable store.now index.now }
    ensures { repeated_run true (store_in store.now) (list_in index.now) (ignoring locations bits) block length ≡ run_means result }
{
    let view = StoreView {
        store: array(store),
        index,
        ignore: Ignore { locations, bits },
    };
    of_run(block_runs(&view, block, length))
}
