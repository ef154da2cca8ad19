// The hash of a fragment on a sound store. It begins with nothing hashed and nothing numbered.
ghost use Rattle.std.specs.Prelude.{◌≡◌, ◌<◌, true};
ghost use Rattle.rules.specs.Building.{first_failed};
ghost use Rattle.layout.specs.Reading.{op_count, store_in};
ghost use Rattle.rules.specs.Causes.{cause_of};
ghost use Rattle.rules.specs.Fragments.{steps};
ghost use Rattle.rules.specs.declared.types.Sort.TheVariants.{Op as op};
ghost use Rattle.rules.specs.Hash.{hash};
ghost use Rattle.layout.specs.Columns.{columns};
ghost use Rattle.layout.specs.Soundness.{IsSound};
ghost use Rattle.fragments.specs.Index.{list_in};
ghost use Rattle.fragments.specs.Options.{renamed_under};
ghost use Rattle.fragments.specs.View.{options_in, store_read};
ghost use Rattle.fragments.specs.Numbered.{DefinitionsFit};
ghost use Rattle.hashing.specs.Walked.{Feeds};
ghost use Rattle.hashing.specs.Calls.{fragment_tests, HashAnswers};

use crate::regionless::hash_regionless;
use crate::shells::hash_op_shell;
use crate::state::RunningHash;
use crate::walk::{hash_blocks_full, hash_op_full};
use fragments::regionless::holds_nothing;
use fragments::sorts::exists;
use fragments::types::Blocks;
use fragments::view::StoreView;
use fragments::words::{NUMBERS_LENGTH, WalkNumbers};
use layout::columns::StoreWords;
use rules::types::{Cause, Sort};

// Why a fragment is not hashed: it does not exist.
#[tactic(auto, unfolding(rules::specs::Causes::cause_of, crate::specs::Calls::fragment_tests, rules::specs::Building::first_failed))]
fn hash_cause(store: &StoreWords, sort: Sort, n: u32) -> Result<(), Cause>
    ensures { cause_of result ≡ first_failed (fragment_tests (store_in store.now) sort n) }
{
    if !exists(store, sort, n) {
        return Err(Cause::NotThere);
    }
    Ok(())
}

// Hash an operation: its shell, then its operands, successors and nested regions.
fn hash_op(view: &StoreView, numbers: &mut WalkNumbers, n: usize, state: &mut RunningHash)
    requires n_bound { n < op_count (columns view.now.store.now) }
    requires definitions_fit { DefinitionsFit (store_read view.now) (steps (store_read view.now) op n) numbers.old }
    ensures { Feeds (store_read view.now) (options_in view.now) (steps (store_read view.now) op n) numbers.old numbers.new state.old.word state.new.word }
{
    hash_op_shell(view, numbers, n, state);
    hash_op_full(view, numbers, n, state);
}

// Hash a fragment by its sort. A block is a list of one block. (The walk that writes keys has the same three cases, with other steps in each.)
fn hash_steps(
    view: &StoreView,
    numbers: &mut WalkNumbers,
    sort: Sort,
    n: usize,
    state: &mut RunningHash,
)
    requires n_value { Rattle.rules.specs.Fragments.exists (store_read view.now) sort n ≡ true }
    requires definitions_fit { DefinitionsFit (store_read view.now) (steps (store_read view.now) sort n) numbers.old }
    ensures { Feeds (store_read view.now) (options_in view.now) (steps (store_read view.now) sort n) numbers.old numbers.new state.old.word state.new.word }
{
    match sort {
        Sort::Op => hash_op(view, numbers, n, state),
        Sort::Block => hash_blocks_full(view, numbers, Blocks::Single(n), state),
        Sort::Region => hash_blocks_full(view, numbers, Blocks::InRegion(n), state),
    }
}

// Compute a structural hash for a fragment that exists.
pub fn existing_hash(view: &StoreView, sort: Sort, n: usize) -> u64
    requires { Rattle.rules.specs.Fragments.exists (store_read view.now) sort n ≡ true }
    ensures { result ≡ hash (renamed_under (options_in view.now) (store_read view.now)) view.now.ignore sort n }
{
    if holds_nothing(view.store, sort, n) {
        return hash_regionless(view, n);
    }
    let mut numbers = [0; NUMBERS_LENGTH];
    let mut state = RunningHash::new();
    hash_steps(view, &mut numbers, sort, n, &mut state);
    state.word
}

// The same of a fragment that may not exist.
pub fn fragment_hash(view: &StoreView, sort: Sort, n: u32) -> Result<u64, Cause>
    ensures { HashAnswers true view.now.store.now (list_in view.now.index.now) view.now.ignore sort n result }
{
    hash_cause(view.store, sort, n)?;
    Ok(existing_hash(view, sort, n as usize))
}
