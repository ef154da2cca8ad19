// The first two passes of `blocks_eq`: everything that two lists of blocks define is mapped, before any use is compared. A loop that takes
// its step as a closure would serve `map_blocks` and `map_ops_in`; with the step's contract written once more for the closure, it is no
// plainer.
ghost use Rattle.std.specs.Prelude.{◌<◌, ◌≡◌, length};
ghost use Rattle.layout.specs.Columns.{columns};
ghost use Rattle.layout.specs.Reading.{block_count};
ghost use Rattle.fragments.specs.View.{options_in, store_read};
ghost use Rattle.equivalence.specs.MappingWords.{mapping_length};
ghost use Rattle.equivalence.specs.Compares.{Compares};
ghost use Rattle.equivalence.specs.Compares.{PairedFits, state_of};
ghost use Rattle.equivalence.specs.Walked.{ListsExist, pass1_walk, pairs_walk, pass2_walk};

use crate::mapping::MappingWords;
use crate::pairing::{block_eq_map, op_eq_map};
use crate::types::BlockLists;
use crate::verdicts::{EqResult, Pair, Unequal};
use fragments::order::BlocksIn;
use fragments::view::StoreView;
use layout::ops_in::OpsIn;

// Pass 1: blocks and their arguments. (No `zip`, here and in `map_ops_in`: which of the two lists ends first decides the answer.)
pub fn map_blocks(
    view: &StoreView,
    mapping: &mut MappingWords,
    lists: BlockLists,
    paired: u32,
) -> EqResult
    requires lists_exist { ListsExist (columns view.now.store.now) lists }
    requires paired_fits { PairedFits (pass1_walk (store_read view.now) (options_in view.now) lists (state_of mapping.old paired)) }
    ensures { Compares (pass1_walk (store_read view.now) (options_in view.now) lists (state_of mapping.old paired)) result mapping.new }
{
    let mut count = paired;
    let mut ls = BlocksIn::new(view.store, lists.left());
    let mut rs = BlocksIn::new(view.store, lists.right());
    loop {
        match (ls.next(), rs.next()) {
            (Some(lhs), Some(rhs)) => {
                let found = Pair { lhs, rhs };
                count = block_eq_map(view, mapping, found, count)?;
            }
            (None, None) => return Ok(count),
            (Some(_), None) => return Err(lists.lengths_neq(count)),
            (None, Some(_)) => return Err(lists.lengths_neq(count)),
        }
    }
}

// Pass 2 in two blocks: their operations and results. If one block has more operations, the first unequal pair is the two blocks.
fn map_ops_in(view: &StoreView, mapping: &mut MappingWords, pair: Pair, paired: u32) -> EqResult
    requires lhs_bound { pair.lhs < block_count (columns view.now.store.now) }
    requires rhs_bound { pair.rhs < block_count (columns view.now.store.now) }
    requires paired_fits { PairedFits (pairs_walk (store_read view.now) (options_in view.now) pair.lhs pair.rhs (state_of mapping.old paired)) }
    ensures { Compares (pairs_walk (store_read view.now) (options_in view.now) pair.lhs pair.rhs (state_of mapping.old paired)) result mapping.new }
{
    let mut count = paired;
    let mut ls = OpsIn::new(view.store, pair.lhs);
    let mut rs = OpsIn::new(view.store, pair.rhs);
    loop {
        match (ls.next(), rs.next()) {
            (Some(lhs), Some(rhs)) => {
                let found = Pair { lhs, rhs };
                count = op_eq_map(view, mapping, found, count)?;
            }
            (None, None) => return Ok(count),
            (Some(_), None) => {
                return Err(Unequal::FirstNEQBlocks(pair.lhs as u32, pair.rhs as u32, count));
            }
            (None, Some(_)) => {
                return Err(Unequal::FirstNEQBlocks(pair.lhs as u32, pair.rhs as u32, count));
            }
        }
    }
}

// Pass 2: every block's operations and their results.
pub fn map_ops(
    view: &StoreView,
    mapping: &mut MappingWords,
    lists: BlockLists,
    paired: u32,
) -> EqResult
    requires lists_exist { ListsExist (columns view.now.store.now) lists }
    requires paired_fits { PairedFits (pass2_walk (store_read view.now) (options_in view.now) lists (state_of mapping.old paired)) }
    ensures { Compares (pass2_walk (store_read view.now) (options_in view.now) lists (state_of mapping.old paired)) result mapping.new }
{
    let mut count = paired;
    let ls = BlocksIn::new(view.store, lists.left());
    let rs = BlocksIn::new(view.store, lists.right());
    for (lhs, rhs) in ls.zip(rs) {
        let found = Pair { lhs, rhs };
        count = map_ops_in(view, mapping, found, count)?;
    }
    Ok(count)
}
