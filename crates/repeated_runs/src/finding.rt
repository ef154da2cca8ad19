// The search in one block: its operations are listed and their windows summed, each once.
ghost use Rattle.std.specs.Prelude.{true, ◌<◌, ◌≤◌, length};
ghost use Rattle.rules.specs.Runs.{max_run};
ghost use Rattle.layout.specs.Columns.{columns};
ghost use Rattle.layout.specs.Reading.{block_count};
ghost use Rattle.fragments.specs.Index.{list_in};
ghost use Rattle.repeated_runs.specs.Walked.{OpsOf};
ghost use Rattle.repeated_runs.specs.Calls.{FirstTwo, RunAnswers};

use crate::listing::ops_in;
use crate::searching::first_run;
use crate::sums::window_sums;
use crate::types::{Runs, Starts};
use equivalence::mapping::{MAPPING_LENGTH, NO_IMAGE};
use fragments::sorts::exists;
use fragments::view::StoreView;
use hashing::chains::Chains;
use rules::limits::{MAX_OPS, MAX_RUN};
use rules::types::{Cause, Sort};

// The first two equal runs of these operations.
fn found_among(view: &StoreView, ops: &[u32], runs: Runs) -> Option<Starts>
    requires ops_of { OpsOf view.now.store.now ops.now runs.block }
    requires le_n { 1 ≤ runs.n }
    requires n_le_max_run { runs.n ≤ max_run }
    requires n_in_bounds { runs.n ≤ length ops.now }
    ensures { FirstTwo view.now runs result }
{
    let mut sums = [0; MAX_OPS];
    window_sums(view, ops, runs.n, &mut sums);
    let sums = &sums[..ops.len() + 1 - runs.n];
    let chains = Chains::new(sums);
    let mut mapping = [NO_IMAGE; MAPPING_LENGTH];
    first_run(view, &mut mapping, ops, sums, &chains, runs)
}

// The first two equal runs. A block with fewer operations than two runs has none.
fn found_in(view: &StoreView, runs: Runs) -> Option<Starts>
    requires block_bound { runs.block < block_count (columns view.now.store.now) }
    requires le_n { 1 ≤ runs.n }
    requires n_le_max_run { runs.n ≤ max_run }
    ensures { FirstTwo view.now runs result }
{
    let mut ops = [0; MAX_OPS];
    let count = ops_in(view.store, runs.block, &mut ops);
    if count < runs.n + runs.n {
        return None;
    }
    found_among(view, &ops[..count], runs)
}

// The first two equal runs of `length` operations of a block that do not overlap.
pub fn block_runs(view: &StoreView, block: u32, length: u32) -> Result<Option<Starts>, Cause>
    ensures { RunAnswers true view.now.store.now (list_in view.now.index.now) view.now.ignore block length result }
{
    if !exists(view.store, Sort::Block, block) {
        return Err(Cause::NotThere);
    }
    if length == 0 || length > MAX_RUN {
        return Err(Cause::BadRunLength);
    }
    let runs = Runs {
        block: block as usize,
        n: length as usize,
    };
    Ok(found_in(view, runs))
}
