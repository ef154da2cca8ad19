// Two runs of a block's operations are compared. `ops` are the numbers of all operations of the block. A loop that takes its step as a closure
// would serve `pair_runs` and `check_runs`; with the step's contract, written once more for the closure, it is no plainer.
ghost use Rattle.std.specs.Prelude.{◌≡◌, ◌+◌, ◌≤◌, length};
ghost use Rattle.rules.specs.Runs.{run_of, same_runs};
ghost use Rattle.fragments.specs.Options.{renamed_under};
ghost use Rattle.fragments.specs.View.{options_in, store_read};
ghost use Rattle.equivalence.specs.MappingWords.{empty_words, mapping_length};
ghost use Rattle.equivalence.specs.Compares.{Compares};
ghost use Rattle.equivalence.specs.Compares.{PairedFits, state_of};
ghost use Rattle.repeated_runs.specs.Walked.{RunsIn, pair_walk, check_walk, runs_walk};

use crate::types::TwoRuns;
use equivalence::mapping::MappingWords;
use equivalence::pairing::op_eq_map;
use equivalence::regions::op_eq_mapped;
use equivalence::unmapping::unmap_entered;
use equivalence::verdicts::{EqResult, Pair, paired_of};
use fragments::view::StoreView;
use rules::types::Sort;

// n operations from i on.
fn run_of(ops: &[u32], n: usize, i: usize) -> &[u32]
    requires { i + n ≤ length ops.now }
    ensures { result.now ≡ run_of ops.now n i }
{
    &ops[i..i + n]
}

// Pass 2: the operations of both runs and their results are mapped.
fn pair_runs(view: &StoreView, mapping: &mut MappingWords, ops: &[u32], two: TwoRuns) -> EqResult
    requires runs_in { RunsIn view.now.store.now ops.now two }
    requires paired_fits { PairedFits (pair_walk (store_read view.now) (options_in view.now) ops.now two (state_of mapping.old 0)) }
    ensures { Compares (pair_walk (store_read view.now) (options_in view.now) ops.now two (state_of mapping.old 0)) result mapping.new }
{
    let lefts = run_of(ops, two.runs.n, two.left);
    let rights = run_of(ops, two.runs.n, two.right);
    let mut count = 0;
    for (lhs, rhs) in lefts.iter().zip(rights) {
        let pair = Pair {
            lhs: *lhs as usize,
            rhs: *rhs as usize,
        };
        count = op_eq_map(view, mapping, pair, count)?;
    }
    Ok(count)
}

// Pass 3: operations that are mapped are compared by their uses and nested regions.
fn check_runs(
    view: &StoreView,
    mapping: &mut MappingWords,
    ops: &[u32],
    two: TwoRuns,
    paired: u32,
) -> EqResult
    requires runs_in { RunsIn view.now.store.now ops.now two }
    requires paired_fits { PairedFits (check_walk (store_read view.now) (options_in view.now) ops.now two (state_of mapping.old paired)) }
    ensures { Compares (check_walk (store_read view.now) (options_in view.now) ops.now two (state_of mapping.old paired)) result mapping.new }
{
    let lefts = run_of(ops, two.runs.n, two.left);
    let rights = run_of(ops, two.runs.n, two.right);
    let mut count = paired;
    for (lhs, rhs) in lefts.iter().zip(rights) {
        let pair = Pair {
            lhs: *lhs as usize,
            rhs: *rhs as usize,
        };
        count = op_eq_mapped(view, mapping, pair, count)?;
    }
    Ok(count)
}

// Both passes.
fn compare_runs(view: &StoreView, mapping: &mut MappingWords, ops: &[u32], two: TwoRuns) -> EqResult
    requires { RunsIn view.now.store.now ops.now two }
    ensures { Compares (runs_walk (store_read view.now) (options_in view.now) ops.now two (state_of mapping.old 0)) result mapping.new }
{
    let paired = pair_runs(view, mapping, ops, two)?;
    check_runs(view, mapping, ops, two, paired)
}

// The two runs are equal. The mapping is empty before, and what was entered is taken out again.
pub fn same_runs(view: &StoreView, mapping: &mut MappingWords, ops: &[u32], two: TwoRuns) -> bool
    requires mapping_value { mapping.old ≡ empty_words }
    requires runs_in { RunsIn view.now.store.now ops.now two }
    ensures value { result ≡ same_runs (renamed_under (options_in view.now) (store_read view.now)) view.now.ignore two.runs.block two.runs.n two.left two.right }
    ensures mapping_after { mapping.new ≡ empty_words }
{
    let result = compare_runs(view, mapping, ops, two);
    unmap_entered(
        view.store,
        mapping,
        Sort::Op,
        ops[two.left],
        paired_of(result),
    );
    result.is_ok()
}
