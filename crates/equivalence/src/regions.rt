// Comparison of two regions, of two lists of blocks, and of two operations that are mapped. The four functions call one another; this ends
// since a region holds fewer operations than the operation around it. An operation's uses are compared after everything in its list of
// blocks is mapped, and before anything in its own regions is. Mapping and count are parameters of their own: one value of the two would
// hold a `&mut`, be made anew at each call, and be no plainer.
ghost use Rattle.std.specs.Prelude.{◌≡◌, ◌<◌, length};
ghost use Rattle.layout.specs.Columns.{columns};
ghost use Rattle.layout.specs.Reading.{op_count, block_count, region_count};
ghost use Rattle.fragments.specs.View.{options_in, store_read};
ghost use Rattle.equivalence.specs.MappingWords.{mapping_length};
ghost use Rattle.equivalence.specs.Compares.{Compares};
ghost use Rattle.equivalence.specs.Compares.{PairedFits, state_of};
ghost use Rattle.equivalence.specs.Walked.{ListsExist, region_walk, op_walk, ops_walk, lists_walk};

use crate::mapping::MappingWords;
use crate::names::names_agree;
use crate::passes::{map_blocks, map_ops};
use crate::types::BlockLists;
use crate::verdicts::{EqResult, Pair, Unequal};
use fragments::order::BlocksIn;
use fragments::view::StoreView;
use layout::columns::{OP_REGION_END, OP_REGION_FIRST, number};
use layout::ops_in::OpsIn;

// Compare everything that `op_eq_map` left unchecked: operands, successors and nested regions. Their mapping must already be updated.
#[cycle(comparing)]
pub fn op_eq_mapped(
    view: &StoreView,
    mapping: &mut MappingWords,
    pair: Pair,
    paired: u32,
) -> EqResult
    requires lhs_bound { pair.lhs < op_count (columns view.now.store.now) }
    requires rhs_bound { pair.rhs < op_count (columns view.now.store.now) }
    requires paired_fits { PairedFits (op_walk (store_read view.now) (options_in view.now) pair.lhs pair.rhs (state_of mapping.old paired)) }
    ensures { Compares (op_walk (store_read view.now) (options_in view.now) pair.lhs pair.rhs (state_of mapping.old paired)) result mapping.new }
{
    let lhs = pair.lhs;
    let rhs = pair.rhs;
    if !names_agree(view, mapping, lhs, rhs) {
        return Err(Unequal::FirstNEQOps(lhs as u32, rhs as u32, paired));
    }
    let ls = number(view.store, OP_REGION_FIRST, lhs)..number(view.store, OP_REGION_END, lhs);
    let rs = number(view.store, OP_REGION_FIRST, rhs)..number(view.store, OP_REGION_END, rhs);
    let mut count = paired;
    for (l, r) in ls.zip(rs) {
        let found = Pair { lhs: l, rhs: r };
        count = region_eq(view, mapping, found, count)?;
    }
    Ok(count)
}

// Compare two regions.
#[cycle(comparing)]
pub fn region_eq(view: &StoreView, mapping: &mut MappingWords, pair: Pair, paired: u32) -> EqResult
    requires lhs_bound { pair.lhs < region_count (columns view.now.store.now) }
    requires rhs_bound { pair.rhs < region_count (columns view.now.store.now) }
    requires paired_fits { PairedFits (region_walk (store_read view.now) (options_in view.now) pair.lhs pair.rhs (state_of mapping.old paired)) }
    ensures { Compares (region_walk (store_read view.now) (options_in view.now) pair.lhs pair.rhs (state_of mapping.old paired)) result mapping.new }
{
    blocks_eq(
        view,
        mapping,
        BlockLists::InRegions(pair.lhs, pair.rhs),
        paired,
    )
}

// Compare two lists of blocks, in three passes: the first two map all definitions, so that uses can be compared in the third.
#[cycle(comparing)]
pub fn blocks_eq(
    view: &StoreView,
    mapping: &mut MappingWords,
    lists: BlockLists,
    paired: u32,
) -> EqResult
    requires lists_exist { ListsExist (columns view.now.store.now) lists }
    requires paired_fits { PairedFits (lists_walk (store_read view.now) (options_in view.now) lists (state_of mapping.old paired)) }
    ensures { Compares (lists_walk (store_read view.now) (options_in view.now) lists (state_of mapping.old paired)) result mapping.new }
{
    // Pass 1: blocks and their arguments.
    let entered = map_blocks(view, mapping, lists, paired)?;
    // Pass 2: every block's operations and their results.
    let mut count = map_ops(view, mapping, lists, entered)?;
    // Pass 3: full comparison of every operation (operands, successors, regions).
    let ls = BlocksIn::new(view.store, lists.left());
    let rs = BlocksIn::new(view.store, lists.right());
    for (lhs, rhs) in ls.zip(rs) {
        let found = Pair { lhs, rhs };
        count = check_ops_in(view, mapping, found, count)?;
    }
    Ok(count)
}

// Pass 3 in two blocks, whose operations and results are mapped.
#[cycle(comparing)]
fn check_ops_in(view: &StoreView, mapping: &mut MappingWords, pair: Pair, paired: u32) -> EqResult
    requires lhs_bound { pair.lhs < block_count (columns view.now.store.now) }
    requires rhs_bound { pair.rhs < block_count (columns view.now.store.now) }
    requires paired_fits { PairedFits (ops_walk (store_read view.now) (options_in view.now) pair.lhs pair.rhs (state_of mapping.old paired)) }
    ensures { Compares (ops_walk (store_read view.now) (options_in view.now) pair.lhs pair.rhs (state_of mapping.old paired)) result mapping.new }
{
    let mut count = paired;
    for (lhs, rhs) in OpsIn::new(view.store, pair.lhs).zip(OpsIn::new(view.store, pair.rhs)) {
        let found = Pair { lhs, rhs };
        count = op_eq_mapped(view, mapping, found, count)?;
    }
    Ok(count)
}
