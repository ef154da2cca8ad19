// What an operation uses: each operand and successor is hashed by its name.
ghost use Rattle.std.specs.Prelude.{◌<◌, All};
ghost use Rattle.layout.specs.Columns.{columns};
ghost use Rattle.layout.specs.Reading.{op_count, store_in};
ghost use Rattle.layout.specs.Soundness.{IsSound};
ghost use Rattle.hashing.specs.Walked.{FeedsUses, FeedsOwnNames};

use crate::state::RunningHash;
use fragments::words::{WalkNumbers, block_name, value_name};
use layout::columns::StoreWords;
use layout::slices::{operands_of, successors_of};
use rules::types::Name;

// Hash each use of a list by the name that `name` gives it.
pub fn hash_uses<F: Fn(u32) -> Name>(list: &[u32], name: F, state: &mut RunningHash)
    requires { All (F.pre name) list.now }
    ensures { FeedsUses (F.post name) list.now state.old.word state.new.word }
{
    for n in list {
        state.hash_name(name(*n));
    }
}

// Hash what an operation uses: its operands, then its successors.
pub fn hash_names(store: &StoreWords, numbers: &WalkNumbers, n: usize, state: &mut RunningHash)
    requires sound { IsSound store.now }
    requires n_bound { n < op_count (columns store.now) }
    ensures { FeedsOwnNames (store_in store.now) n numbers.now state.old.word state.new.word }
{
    hash_uses(
        operands_of(store, n),
        |v| value_name(store, numbers, v),
        state,
    );
    hash_uses(successors_of(store, n), |b| block_name(numbers, b), state);
}
