// Two operations or two blocks are paired: what they have by themselves is compared, and then they and their values are mapped.
ghost use Rattle.std.specs.Prelude.{◌≡◌, ◌-◌, ◌+◌, ◌<◌, ◌≤◌, length};
ghost use Rattle.rules.specs.Comparison.{pair_ops, pair_blocks};
ghost use Rattle.layout.specs.Columns.{columns};
ghost use Rattle.layout.specs.Reading.{op_count, block_count};
ghost use Rattle.fragments.specs.Options.{renamed_under};
ghost use Rattle.fragments.specs.View.{options_in, store_read};
ghost use Rattle.equivalence.specs.MappingWords.{mapping_length};
ghost use Rattle.equivalence.specs.Compares.{Compares};
ghost use Rattle.equivalence.specs.Compares.{state_of, max_paired};

use crate::mapping::{MappingWords, map_block, map_op, map_values};
use crate::shells::{op_shells_eq, rows_eq};
use crate::verdicts::{EqResult, Pair, Unequal};
use fragments::rows::{block_row, op_row};
use fragments::view::StoreView;

// Check that the two have the same shape and map `lhs -> rhs`.
pub fn op_eq_map(view: &StoreView, mapping: &mut MappingWords, pair: Pair, paired: u32) -> EqResult
    requires lhs_bound { pair.lhs < op_count (columns view.now.store.now) }
    requires rhs_bound { pair.rhs < op_count (columns view.now.store.now) }
    requires paired_le_max_paired { paired ≤ max_paired }
    ensures { Compares (pair_ops (renamed_under (options_in view.now) (store_read view.now)) view.now.ignore pair.lhs pair.rhs (state_of mapping.old paired)) result mapping.new }
{
    let lhs = pair.lhs;
    let rhs = pair.rhs;
    let l = op_row(view.store, lhs);
    let r = op_row(view.store, rhs);
    if !op_shells_eq(view, Pair { lhs, rhs }, l, r) {
        return Err(Unequal::FirstNEQOps(lhs as u32, rhs as u32, paired));
    }
    map_op(mapping, lhs, rhs as u32);
    map_values(mapping, l.value, r.value as u32, l.values);
    Ok(paired + 1)
}

// Check that the two have the same shape and map `lhs -> rhs`. This and `op_eq_map` differ in each of their calls, so that one function for
// both would have a trait for the four of them, and be no plainer.
pub fn block_eq_map(
    view: &StoreView,
    mapping: &mut MappingWords,
    pair: Pair,
    paired: u32,
) -> EqResult
    requires lhs_bound { pair.lhs < block_count (columns view.now.store.now) }
    requires rhs_bound { pair.rhs < block_count (columns view.now.store.now) }
    requires paired_le_max_paired { paired ≤ max_paired }
    ensures { Compares (pair_blocks (renamed_under (options_in view.now) (store_read view.now)) view.now.ignore pair.lhs pair.rhs (state_of mapping.old paired)) result mapping.new }
{
    let lhs = pair.lhs;
    let rhs = pair.rhs;
    let l = block_row(view.store, lhs);
    let r = block_row(view.store, rhs);
    if !rows_eq(view.store, view.index, view.ignore, l, r) {
        return Err(Unequal::FirstNEQBlocks(lhs as u32, rhs as u32, paired));
    }
    map_block(mapping, lhs, rhs as u32);
    map_values(mapping, l.value, r.value as u32, l.values);
    Ok(paired + 1)
}
