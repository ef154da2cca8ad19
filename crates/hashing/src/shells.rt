// Shells: what is hashed of an operation or a block by itself. Then its values, and a block itself, get the next walk numbers.
ghost use Rattle.std.specs.Prelude.{◌≡◌, ◌<◌, [], ◌∷◌, map, length};
ghost use Rattle.std.specs.List.{flat_map};
ghost use Rattle.rules.specs.declared.types.Owner.TheVariants.{Op as of_op, Block as of_block};
ghost use Rattle.rules.specs.Fragments.{shell};
ghost use Rattle.rules.specs.Shells.{unignored_location};
ghost use Rattle.rules.specs.Types;
ghost use Rattle.rules.specs.Hash.{fnv_from, leaf, location_bytes, head_bytes, uncounted, shell_bytes};
ghost use Rattle.layout.specs.Columns.{buffer_length, columns};
ghost use Rattle.layout.specs.Reading.{op_count, block_count, store_in};
ghost use Rattle.layout.specs.Soundness.{IsSound};
ghost use Rattle.fragments.specs.Index.{list_in, IsIndex};
ghost use Rattle.fragments.specs.Options.{options_of};
ghost use Rattle.fragments.specs.View.{options_in, store_read};
ghost use Rattle.fragments.specs.Rows.{RowFits, row_shell};
ghost use Rattle.fragments.specs.Numbered.{DefinitionsFit};
ghost use Rattle.hashing.specs.Walked.{owner_bytes, Feeds};

use crate::attributes::attributes_hash;
use crate::state::RunningHash;
use fragments::lookup::present;
use fragments::rows::{block_row, op_regions, op_row};
use fragments::types::ShellRow;
use fragments::view::StoreView;
use fragments::words::{WalkNumbers, define_block, define_op};
use layout::columns::{OP_KIND, StoreWords, VALUE_TYPE, at, words};
use rules::types::Ignore;

// Hash a location, unless locations are ignored.
fn location_hash(ignore: Ignore, location: u32, state: &mut RunningHash)
    ensures { state.new.word ≡ fnv_from state.old.word (location_bytes (unignored_location ignore location)) }
{
    if !ignore.locations {
        state.hash_leaf(location);
    }
}

// Hash the present type of each type.
fn hash_types(index: &[u32], types: &[u32], state: &mut RunningHash)
    requires { IsIndex index.now }
    ensures { state.new.word ≡ fnv_from state.old.word (flat_map leaf (map (Types.present (list_in index.now)) types.now)) }
{
    for t in types {
        state.hash_leaf(present(index, *t));
    }
}

// Hash what operations and blocks have in common: location, attributes, and the present types of the values.
pub fn hash_row(
    store: &StoreWords,
    index: &[u32],
    ignore: Ignore,
    row: ShellRow,
    state: &mut RunningHash,
)
    requires index { IsIndex index.now }
    requires row_fits { RowFits (columns store.now) row }
    ensures { state.new.word ≡ fnv_from state.old.word (shell_bytes uncounted (row_shell (columns store.now) (options_of ignore index.now) row)) }
{
    location_hash(ignore, row.location, state);
    let end = row.slot + row.attributes;
    attributes_hash(store, ignore, row.slot, end, state);
    let own = words(store, VALUE_TYPE, row.value, row.value + row.values);
    hash_types(index, own, state);
}

// Hash what only an operation has: its kind, and how many regions it has.
fn hash_head(store: &StoreWords, n: usize, state: &mut RunningHash)
    requires sound { IsSound store.now }
    requires n_bound { n < op_count (columns store.now) }
    ensures { state.new.word ≡ fnv_from state.old.word (head_bytes (store_in store.now) (of_op n)) }
{
    let kind = at(store, OP_KIND, n);
    state.hash_head(kind, op_regions(store, n) as u32);
}

// What an operation feeds of itself, apart from all numbering: its head and its row.
pub fn feed_op_shell(view: &StoreView, n: usize, state: &mut RunningHash)
    requires n_bound { n < op_count (columns view.now.store.now) }
    ensures { state.new.word ≡ fnv_from state.old.word (owner_bytes (store_read view.now) (options_in view.now) (of_op n)) }
{
    hash_head(view.store, n, state);
    let row = op_row(view.store, n);
    hash_row(view.store, view.index, view.ignore, row, state);
}

// What a block feeds of itself.
pub fn feed_block_shell(view: &StoreView, n: usize, state: &mut RunningHash)
    requires n_bound { n < block_count (columns view.now.store.now) }
    ensures { state.new.word ≡ fnv_from state.old.word (owner_bytes (store_read view.now) (options_in view.now) (of_block n)) }
{
    let row = block_row(view.store, n);
    hash_row(view.store, view.index, view.ignore, row, state);
}

// Hash components of an operation that do not use or contain other things, and define its results.
pub fn hash_op_shell(view: &StoreView, numbers: &mut WalkNumbers, n: usize, state: &mut RunningHash)
    requires n_bound { n < op_count (columns view.now.store.now) }
    requires definitions_fit { DefinitionsFit (store_read view.now) (shell (of_op n) ∷ []) numbers.old }
    ensures { Feeds (store_read view.now) (options_in view.now) (shell (of_op n) ∷ []) numbers.old numbers.new state.old.word state.new.word }
{
    define_op(view.store, numbers, n);
    feed_op_shell(view, n, state);
}

// Hash components of a block that do not use or contain other things, and define the block and its arguments.
pub fn hash_block_shell(
    view: &StoreView,
    numbers: &mut WalkNumbers,
    n: usize,
    state: &mut RunningHash,
)
    requires n_bound { n < block_count (columns view.now.store.now) }
    requires definitions_fit { DefinitionsFit (store_read view.now) (shell (of_block n) ∷ []) numbers.old }
    ensures { Feeds (store_read view.now) (options_in view.now) (shell (of_block n) ∷ []) numbers.old numbers.new state.old.word state.new.word }
{
    define_block(view.store, numbers, n);
    feed_block_shell(view, n, state);
}
