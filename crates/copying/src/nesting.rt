// Would an operation of the copy be nested too deep?
ghost use Rattle.std.specs.Prelude.{◌≡◌, true};
ghost use Rattle.rules.specs.Store.{parent_exists};
ghost use Rattle.rules.specs.Copying.{copy_nests};
ghost use Rattle.layout.specs.Reading.{store_in};

use crate::original::Original;
use crate::steps::Step;
use layout::columns::{OP_DEPTH, number};
use mutation::tests::depth_under;
use rules::limits::MAX_NESTING;

// The copy of each operation is as far below the copy as the operation is below the original.
pub fn copy_nests(original: &Original, parent: Option<u32>) -> bool
    requires { parent_exists (store_in original.now.store.now) parent ≡ true }
    ensures { result ≡ copy_nests (store_in original.now.store.now) original.now.n parent }
{
    let under = depth_under(original.store, parent) as usize;
    let own = number(original.store, OP_DEPTH, original.n);
    for step in original.steps {
        if let Step::OpShell(m) = *step {
            if under + (number(original.store, OP_DEPTH, m as usize) - own) > MAX_NESTING {
                return false;
            }
        }
    }
    true
}
