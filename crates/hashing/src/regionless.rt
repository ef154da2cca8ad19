// An operation without regions, hashed alone: no words are needed to number what it defines.
ghost use Rattle.fragments.specs.View.{store_read};
ghost use Rattle.std.specs.Prelude.{◌≡◌, ◌-◌, ◌<◌, []};
ghost use Rattle.std.specs.List.{flat_map};
ghost use Rattle.rules.specs.Store.{regions_of};
ghost use Rattle.rules.specs.declared.types.Sort.TheVariants.{Op as op};
ghost use Rattle.rules.specs.Hash.{fnv_from, hash};
ghost use Rattle.rules.specs.Types.{renamed};
ghost use Rattle.layout.specs.Columns.{columns};
ghost use Rattle.layout.specs.Reading.{consecutive, op_count};
ghost use Rattle.fragments.specs.Index.{list_in};
ghost use Rattle.hashing.specs.Walked.{bytes_in};

use crate::names::hash_uses;
use crate::shells::hash_row;
use crate::state::RunningHash;
use fragments::regionless::own_name;
use fragments::rows::op_row;
use fragments::view::StoreView;
use layout::columns::{OP_KIND, at};
use layout::slices::{operands_of, successors_of};
use rules::types::Name;

// Hash an operation without regions: its shell, its operands, its successors. No block is defined within it.
pub fn hash_regionless(view: &StoreView, n: usize) -> u64
    requires n_bound { n < op_count (columns view.now.store.now) }
    requires n_value { regions_of (store_read view.now) n ≡ [] }
    ensures { result ≡ hash (renamed (list_in view.now.index.now) (store_read view.now)) view.now.ignore op n }
{
    let row = op_row(view.store, n);
    let end = row.value + row.values;
    let mut state = RunningHash::new();
    state.hash_head(at(view.store, OP_KIND, n), 0);
    hash_row(view.store, view.index, view.ignore, row, &mut state);
    hash_uses(
        operands_of(view.store, n),
        |v| own_name(row.value, end, v),
        &mut state,
    );
    hash_uses(
        successors_of(view.store, n),
        |b| Name::StoreNumber(b),
        &mut state,
    );
    state.word
}
