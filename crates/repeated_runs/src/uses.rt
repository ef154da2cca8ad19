// A test ahead of a comparison, of the first operations' operands alone: one that is no result of the left run is not mapped, so that the
// right operation must have the same. It is necessary for equal runs, not sufficient.
ghost use Rattle.std.specs.Prelude.{◌≡◌, false, ℕ, ◌<◌};
ghost use mathlib.Core.List.{List, Memᴰ};
ghost use Rattle.rules.specs.Runs.{same_runs};
ghost use Rattle.rules.specs.declared.types.Ignore.{Ignore};
ghost use Rattle.rules.specs.Types.{renamed};
ghost use Rattle.layout.specs.Columns.{columns};
ghost use Rattle.layout.specs.Reading.{value_count, store_in};
ghost use Rattle.layout.specs.Soundness.{IsSound};
ghost use Rattle.repeated_runs.specs.Walked.{RunsIn, left_results};

use crate::types::TwoRuns;
use layout::columns::{StoreWords, VALUE_OWNER, at};
use layout::slices::operands_of;

// The value may be a result of an operation of the left run: its owner is an operation whose number is neither below the run's first one nor
// above its last. A block's operations stand by rising number.
fn may_define(store: &StoreWords, ops: &[u32], two: TwoRuns, value: u32) -> bool
    requires sound { IsSound store.now }
    requires runs_in { RunsIn store.now ops.now two }
    requires value_bound { value < value_count (columns store.now) }
    ensures { result ≡ false → Memᴰ value (left_results (store_in store.now) ops.now two) → ⊥ }
{
    let owner = at(store, VALUE_OWNER, value as usize);
    ops[two.left] <= owner / 2 && owner / 2 <= ops[two.left + two.runs.n - 1] && owner % 2 == 0
}

// The first operations' operands may agree: each left one is the right one, or may be a result of the left run. If not, the runs are not equal,
// whatever types are renamed and whatever is ignored. Operands that are not as many are left to the comparison.
pub fn first_uses_may_agree(store: &StoreWords, ops: &[u32], two: TwoRuns) -> bool
    requires sound { IsSound store.now }
    requires runs_in { RunsIn store.now ops.now two }
    ensures { (types : List ℕ) (ig : Ignore) → result ≡ false → same_runs (renamed types (store_in store.now)) ig two.runs.block two.runs.n two.left two.right ≡ false }
{
    let l = operands_of(store, ops[two.left] as usize);
    let r = operands_of(store, ops[two.right] as usize);
    if l.len() != r.len() {
        return true;
    }
    for (value, other) in l.iter().zip(r) {
        if value != other && !may_define(store, ops, two, *value) {
            return false;
        }
    }
    true
}
