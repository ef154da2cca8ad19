// The three offered comparisons: each refuses a buffer that is not sound, a mapping that is not allowed and a list of renamed types that does
// not hold, and then compares its fragments. They are three because the interface names each sort of fragment.
ghost use Rattle.std.specs.Prelude.{true, ◌≡◌};
ghost use Rattle.rules.specs.declared.types.Sort.TheVariants.{Op as op, Block as block, Region as region};
ghost use Rattle.rules.specs.Mapping.{allowed};
ghost use Rattle.layout.specs.Reading.{store_in};
ghost use Rattle.layout.specs.Soundness.{IsSound};
ghost use Rattle.layout.specs.MarkedReading.{sound_lent};
ghost use Rattle.equivalence.specs.MappingWords.{mapping_of};
ghost use Rattle.equivalence.specs.Compares.{compared_of};
ghost use Rattle.equivalence.specs.Calls.{ComparisonAnswers};

use equivalence::comparison::fragments_eq;
use equivalence::mapping::{MappingWords, is_allowed};
use equivalence::types::Fragments;
use equivalence::verdicts::EqResult;
use fragments::indexing::{INDEX_LENGTH, index_types};
use fragments::view::StoreView;
use layout::columns::StoreWords;
use rules::types::{Cause, Ignore, Sort};
use validation::lent::sound_words;

// Compare two fragments on a sound store, begun with an allowed mapping, under a list of renamed types that may hold any words: it is
// tested, and indexed for the walk.
fn indexed_eq(
    store: &StoreWords,
    types: &[u32],
    mapping: &mut MappingWords,
    of: Fragments,
    ignore: Ignore,
) -> Result<EqResult, Cause>
    requires sound { IsSound store.now }
    requires mapping_value { allowed (store_in store.now) (mapping_of mapping.old) ≡ true }
    ensures { ComparisonAnswers true store.now types.now mapping.old mapping.new ignore of.sort of.lhs of.rhs (compared_of result) }
{
    let mut index = [0; INDEX_LENGTH];
    let words = index_types(types, &mut index).ok_or(Cause::BadTypes)?;
    let view = StoreView {
        store,
        index: &index[..words],
        ignore,
    };
    fragments_eq(&view, mapping, of)
}

// Compare two fragments of one sort, with a store, a list of renamed types and a mapping that may hold any words. No words are the index of
// no rows.
fn lent_eq(
    store: &[u32],
    types: &[u32],
    mapping: &mut [u32],
    of: Fragments,
    ignore: Ignore,
) -> Result<EqResult, Cause>
    ensures { ComparisonAnswers (sound_lent store.now) store.now types.now mapping.old mapping.new ignore of.sort of.lhs of.rhs (compared_of result) }
{
    let Some(words) = sound_words(store) else {
        return Err(Cause::NotSound);
    };
    let Some(entries) = mapping.as_mut_array() else {
        return Err(Cause::BadMapping);
    };
    if !is_allowed(words, entries) {
        return Err(Cause::BadMapping);
    }
    if types.is_empty() {
        let view = StoreView {
            store: words,
            index: types,
            ignore,
        };
        return fragments_eq(&view, entries, of);
    }
    indexed_eq(words, types, entries, of, ignore)
}

pub fn operation_eq(
    store: &[u32],
    types: &[u32],
    mapping: &mut [u32],
    lhs: u32,
    rhs: u32,
    ignore: Ignore,
) -> Result<EqResult, Cause>
    ensures { ComparisonAnswers (sound_lent store.now) store.now types.now mapping.old mapping.new ignore op lhs rhs (compared_of result) }
{
    let of = Fragments {
        sort: Sort::Op,
        lhs,
        rhs,
    };
    lent_eq(store, types, mapping, of, ignore)
}

pub fn region_eq(
    store: &[u32],
    types: &[u32],
    mapping: &mut [u32],
    lhs: u32,
    rhs: u32,
    ignore: Ignore,
) -> Result<EqResult, Cause>
    ensures { ComparisonAnswers (sound_lent store.now) store.now types.now mapping.old mapping.new ignore region lhs rhs (compared_of result) }
{
    let of = Fragments {
        sort: Sort::Region,
        lhs,
        rhs,
    };
    lent_eq(store, types, mapping, of, ignore)
}

pub fn basic_block_eq(
    store: &[u32],
    types: &[u32],
    mapping: &mut [u32],
    lhs: u32,
    rhs: u32,
    ignore: Ignore,
) -> Result<EqResult, Cause>
    ensures { ComparisonAnswers (sound_lent store.now) store.now types.now mapping.old mapping.new ignore block lhs rhs (compared_of result) }
{
    let of = Fragments {
        sort: Sort::Block,
        lhs,
        rhs,
    };
    lent_eq(store, types, mapping, of, ignore)
}
