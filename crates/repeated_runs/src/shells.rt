// What an operation is by itself, as one word.
ghost use Rattle.std.specs.Prelude.{◌≡◌, ◌<◌};
ghost use Rattle.rules.specs.Runs.{shell_hash};
ghost use Rattle.layout.specs.Columns.{columns};
ghost use Rattle.layout.specs.Reading.{op_count};
ghost use Rattle.fragments.specs.Options.{renamed_under};
ghost use Rattle.fragments.specs.View.{options_in, store_read};

use fragments::rows::{op_regions, op_row};
use fragments::view::StoreView;
use hashing::shells::hash_row;
use hashing::state::RunningHash;
use layout::columns::{OP_KIND, at};

// The hash of an operation's shell, with no numbering. (It is put together here, and not by the hash's own `feed_op_shell`: a second caller
// would take that out of line in every hash.)
pub fn shell_hash(view: &StoreView, n: usize) -> u64
    requires n_bound { n < op_count (columns view.now.store.now) }
    ensures { result ≡ shell_hash (renamed_under (options_in view.now) (store_read view.now)) view.now.ignore n }
{
    let kind = at(view.store, OP_KIND, n);
    let mut state = RunningHash::new();
    state.hash_head(kind, op_regions(view.store, n) as u32);
    let row = op_row(view.store, n);
    hash_row(view.store, view.index, view.ignore, row, &mut state);
    state.word
}
