// Comparison of two fragments on a sound store, begun with an allowed mapping.
ghost use Rattle.std.specs.Prelude.{true, ◌≡◌, ◌<◌, length};
ghost use Rattle.rules.specs.Building.{first_failed};
ghost use Rattle.rules.specs.Fragments as rules;
ghost use Rattle.rules.specs.declared.types.Sort.TheVariants.{Op as op};
ghost use Rattle.rules.specs.Mapping.{allowed};
ghost use Rattle.layout.specs.Columns.{columns};
ghost use Rattle.layout.specs.Reading.{op_count, store_in};
ghost use Rattle.rules.specs.Causes.{cause_of};
ghost use Rattle.layout.specs.Soundness.{IsSound};
ghost use Rattle.fragments.specs.Index.{list_in};
ghost use Rattle.fragments.specs.View.{options_in, store_read};
ghost use Rattle.equivalence.specs.MappingWords.{mapping_of, mapping_length};
ghost use Rattle.equivalence.specs.Compares.{Compares};
ghost use Rattle.equivalence.specs.Compares.{PairedFits, compared_of, state_of};
ghost use Rattle.equivalence.specs.Walked.{fragments_walk};
ghost use Rattle.equivalence.specs.Calls.{ComparisonAnswers, pair_tests};

use crate::mapping::MappingWords;
use crate::pairing::op_eq_map;
use crate::regions::{blocks_eq, op_eq_mapped, region_eq};
use crate::types::{BlockLists, Fragments};
use crate::verdicts::{EqResult, Pair, Unequal};
use fragments::sorts::exists;
use fragments::view::StoreView;
use layout::columns::{OP_KIND, StoreWords, at};
use rules::types::{Cause, Sort};

// Two fragments are compared if both exist.
#[tactic(auto, unfolding(rules::specs::Causes::cause_of, crate::specs::Calls::pair_tests, rules::specs::Building::first_failed))]
pub fn both_exist(store: &StoreWords, sort: Sort, lhs: u32, rhs: u32) -> Result<(), Cause>
    ensures { cause_of result ≡ first_failed (pair_tests (store_in store.now) sort lhs rhs) }
{
    if exists(store, sort, lhs) && exists(store, sort, rhs) {
        return Ok(());
    }
    Err(Cause::NotThere)
}

// Compare two operations: they are mapped, and then everything else about them is compared. The pair is put together anew, so that calls
// take it in registers.
pub fn ops_eq(view: &StoreView, mapping: &mut MappingWords, pair: Pair) -> EqResult
    requires lhs_bound { pair.lhs < op_count (columns view.now.store.now) }
    requires rhs_bound { pair.rhs < op_count (columns view.now.store.now) }
    requires paired_fits { PairedFits (fragments_walk (store_read view.now) (options_in view.now) op pair.lhs pair.rhs (state_of mapping.old 0)) }
    ensures { Compares (fragments_walk (store_read view.now) (options_in view.now) op pair.lhs pair.rhs (state_of mapping.old 0)) result mapping.new }
{
    let both = Pair {
        lhs: pair.lhs,
        rhs: pair.rhs,
    };
    let paired = op_eq_map(view, mapping, both, 0)?;
    op_eq_mapped(view, mapping, both, paired)
}

// Compare two fragments by their sort. Two blocks are two lists of one block each.
fn walk_eq(view: &StoreView, mapping: &mut MappingWords, of: Fragments) -> EqResult
    requires lhs_value { rules.exists (store_read view.now) of.sort of.lhs ≡ true }
    requires rhs_value { rules.exists (store_read view.now) of.sort of.rhs ≡ true }
    ensures { Compares (fragments_walk (store_read view.now) (options_in view.now) of.sort of.lhs of.rhs (state_of mapping.old 0)) result mapping.new }
{
    let pair = Pair {
        lhs: of.lhs as usize,
        rhs: of.rhs as usize,
    };
    match of.sort {
        Sort::Op => ops_eq(view, mapping, pair),
        Sort::Block => {
            let lists = BlockLists::Single(pair.lhs, pair.rhs);
            blocks_eq(view, mapping, lists, 0)
        }
        Sort::Region => region_eq(view, mapping, pair, 0),
    }
}

// Compare two fragments of one sort.
pub fn fragments_eq(
    view: &StoreView,
    mapping: &mut MappingWords,
    of: Fragments,
) -> Result<EqResult, Cause>
    requires { allowed (store_read view.now) (mapping_of mapping.old) ≡ true }
    ensures { ComparisonAnswers true view.now.store.now (list_in view.now.index.now) mapping.old mapping.new view.now.ignore of.sort of.lhs of.rhs (compared_of result) }
{
    both_exist(view.store, of.sort, of.lhs, of.rhs)?;
    Ok(walk_eq(view, mapping, of))
}

// Compare two operations, as `fragments_eq` does. Kinds that differ at first sight are told before anything else is read.
pub fn operations_eq(
    view: &StoreView,
    mapping: &mut MappingWords,
    lhs: u32,
    rhs: u32,
) -> Result<EqResult, Cause>
    requires { allowed (store_read view.now) (mapping_of mapping.old) ≡ true }
    ensures { ComparisonAnswers true view.now.store.now (list_in view.now.index.now) mapping.old mapping.new view.now.ignore op lhs rhs (compared_of result) }
{
    both_exist(view.store, Sort::Op, lhs, rhs)?;
    if at(view.store, OP_KIND, lhs as usize) != at(view.store, OP_KIND, rhs as usize) {
        return Ok(Err(Unequal::FirstNEQOps(lhs, rhs, 0)));
    }
    let pair = Pair {
        lhs: lhs as usize,
        rhs: rhs as usize,
    };
    Ok(ops_eq(view, mapping, pair))
}
