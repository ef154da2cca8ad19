// The search: of all right starts the smallest that has a left one, and of its left ones the smallest. `sums[i]` is the sum of the window
// from operation i on; runs whose sums differ are not compared. Starts are chained by buckets of sums, and a start of another bucket is not
// even looked at.
ghost use Rattle.std.specs.Prelude.{◌≡◌, ◌+◌, ◌≤◌, length};
ghost use Rattle.rules.specs.Runs.{same_runs, left_start};
ghost use Rattle.fragments.specs.Options.{renamed_under};
ghost use Rattle.fragments.specs.View.{options_in, store_read};
ghost use Rattle.equivalence.specs.MappingWords.{empty_words};
ghost use Rattle.repeated_runs.specs.Windows.{SumsOf};
ghost use Rattle.repeated_runs.specs.Walked.{OpsOf, RunsIn, ChainedStarts};
ghost use Rattle.repeated_runs.specs.Calls.{FirstTwo};

use crate::comparing::same_runs;
use crate::types::{Runs, Starts, TwoRuns};
use crate::uses::first_uses_may_agree;
use equivalence::mapping::MappingWords;
use fragments::view::StoreView;
use hashing::chains::Chains;

// The two runs are equal. Where the operands of their first operations tell that they are not, they are not compared.
fn equal_runs(view: &StoreView, mapping: &mut MappingWords, ops: &[u32], two: TwoRuns) -> bool
    requires mapping_value { mapping.old ≡ empty_words }
    requires runs_in { RunsIn view.now.store.now ops.now two }
    ensures value { result ≡ same_runs (renamed_under (options_in view.now) (store_read view.now)) view.now.ignore two.runs.block two.runs.n two.left two.right }
    ensures mapping_after { mapping.new ≡ empty_words }
{
    if !first_uses_may_agree(view.store, ops, two) {
        return false;
    }
    same_runs(view, mapping, ops, two)
}

// The first left start of a right one: its run ends before the right one begins, and is equal to it. (Each start leads to the next of its
// bucket: no index is counted.)
fn left_start(
    view: &StoreView,
    mapping: &mut MappingWords,
    ops: &[u32],
    sums: &[u64],
    chains: &Chains,
    runs: Runs,
    right: usize,
) -> Option<usize>
    requires mapping_value { mapping.old ≡ empty_words }
    requires ops_of { OpsOf view.now.store.now ops.now runs.block }
    requires le_n { 1 ≤ runs.n }
    requires right_in_bounds { right + runs.n ≤ length ops.now }
    requires sums_of { SumsOf (store_read view.now) (options_in view.now) ops.now sums.now runs.n }
    requires chained_starts { ChainedStarts sums.now chains.now ops.now runs.n }
    ensures result_value { result ≡ left_start (renamed_under (options_in view.now) (store_read view.now)) view.now.ignore runs.block runs.n right }
    ensures mapping_after { mapping.new ≡ empty_words }
{
    let sum = sums[right];
    let mut next = chains.first_start(sum);
    while let Some(left) = next {
        if left + runs.n > right {
            return None;
        }
        let two = TwoRuns { runs, left, right };
        if sums[left] == sum && equal_runs(view, mapping, ops, two) {
            return Some(left);
        }
        next = chains.next_start(left);
    }
    None
}

// The first two equal runs. A right start smaller than the length has no left one.
pub fn first_run(
    view: &StoreView,
    mapping: &mut MappingWords,
    ops: &[u32],
    sums: &[u64],
    chains: &Chains,
    runs: Runs,
) -> Option<Starts>
    requires mapping_value { mapping.old ≡ empty_words }
    requires ops_of { OpsOf view.now.store.now ops.now runs.block }
    requires le_n { 1 ≤ runs.n }
    requires sums_of { SumsOf (store_read view.now) (options_in view.now) ops.now sums.now runs.n }
    requires chained_starts { ChainedStarts sums.now chains.now ops.now runs.n }
    ensures { FirstTwo view.now runs result }
{
    for right in runs.n..sums.len() {
        if let Some(left) = left_start(view, mapping, ops, sums, chains, runs, right) {
            return Some(Starts {
                left: left as u32,
                right: right as u32,
            });
        }
    }
    None
}
