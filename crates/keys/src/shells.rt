// Shells: what a key holds of an operation or a block by itself. Its values, and a block itself, get the next walk numbers.
ghost use Rattle.std.specs.Prelude.{[], ◌∷◌, ◌<◌};
ghost use Rattle.rules.specs.declared.types.Owner.TheVariants.{Op as of_op, Block as of_block};
ghost use Rattle.rules.specs.Fragments.{shell};
ghost use Rattle.layout.specs.Columns.{columns};
ghost use Rattle.layout.specs.Reading.{op_count, block_count};
ghost use Rattle.fragments.specs.Numbered.{DefinitionsFit};
ghost use Rattle.fragments.specs.View.{store_read, options_in};
ghost use Rattle.keys.specs.Written.{place, Puts};

use crate::shell_bytes::{put_own_block, put_own_op};
use fragments::view::StoreView;
use fragments::words::{WalkNumbers, define_block, define_op};

// The components of an operation that do not use or contain other things; and its results are defined.
pub fn put_op_shell(view: &StoreView, numbers: &mut WalkNumbers, key: &mut [u8], n: usize) -> usize
    requires n_bound { n < op_count (columns view.now.store.now) }
    requires definitions_fit { DefinitionsFit (store_read view.now) (shell (of_op n) ∷ []) numbers.old }
    ensures { Puts (store_read view.now) (options_in view.now) (shell (of_op n) ∷ []) (place numbers.old key.old) (place numbers.new key.new) result }
{
    define_op(view.store, numbers, n);
    put_own_op(view, key, n)
}

// The components of a block that do not use or contain other things; and the block and its arguments are defined.
pub fn put_block_shell(
    view: &StoreView,
    numbers: &mut WalkNumbers,
    key: &mut [u8],
    n: usize,
) -> usize
    requires n_bound { n < block_count (columns view.now.store.now) }
    requires definitions_fit { DefinitionsFit (store_read view.now) (shell (of_block n) ∷ []) numbers.old }
    ensures { Puts (store_read view.now) (options_in view.now) (shell (of_block n) ∷ []) (place numbers.old key.old) (place numbers.new key.new) result }
{
    define_block(view.store, numbers, n);
    put_own_block(view, key, n)
}
