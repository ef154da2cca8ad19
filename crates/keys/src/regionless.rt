// An operation without regions, alone: no words are needed to number what it defines.
ghost use Rattle.std.specs.Prelude.{[], ◌++◌, ◌≡◌, ◌<◌};
ghost use Rattle.rules.specs.Store.{op_at, regions_of, values_of};
ghost use Rattle.rules.specs.declared.types.Owner.TheVariants.{Op as of_op};
ghost use Rattle.rules.specs.declared.types.Sort.TheVariants.{Op as op};
ghost use Rattle.rules.specs.Types.{renamed};
ghost use Rattle.rules.specs.Keys;
ghost use Rattle.layout.specs.Columns.{columns};
ghost use Rattle.layout.specs.Reading.{op_count, store_in};
ghost use Rattle.layout.specs.Soundness.{IsSound};
ghost use Rattle.fragments.specs.Index.{list_in};
ghost use Rattle.keys.specs.Put.{Put};
ghost use Rattle.fragments.specs.View.{store_read};
ghost use Rattle.keys.specs.Written.{names_bytes};

use crate::names::put_uses;
use crate::shell_bytes::put_own_op;
use fragments::regionless::own_name;
use fragments::rows::op_row;
use fragments::view::StoreView;
use layout::columns::StoreWords;
use layout::slices::{operands_of, successors_of};
use rules::types::Name;

// The operands, of which the operation's own results are numbered, and the successors, of which none is.
fn put_own_uses(store: &StoreWords, key: &mut [u8], n: usize) -> usize
    requires sound { IsSound store.now }
    requires n_bound { n < op_count (columns store.now) }
    ensures { Put (names_bytes (values_of (store_in store.now) (of_op n)) (op_at (store_in store.now) n).operands ++ names_bytes [] (op_at (store_in store.now) n).successors) key.old key.new result }
{
    let row = op_row(store, n);
    let first = row.value;
    let end = first + row.values;
    let at = put_uses(key, operands_of(store, n), |v| own_name(first, end, v));
    let rest = at.min(key.len());
    let successors = successors_of(store, n);
    at.saturating_add(put_uses(&mut key[rest..], successors, |b| Name::StoreNumber(b)))
}

// The key of an operation without regions: its shell, its operands, its successors.
pub fn put_regionless(view: &StoreView, key: &mut [u8], n: usize) -> usize
    requires n_bound { n < op_count (columns view.now.store.now) }
    requires n_value { regions_of (store_read view.now) n ≡ [] }
    ensures { Put (Keys.key (renamed (list_in view.now.index.now) (store_read view.now)) view.now.ignore op n) key.old key.new result }
{
    let at = put_own_op(view, key, n);
    let rest = at.min(key.len());
    at.saturating_add(put_own_uses(view.store, &mut key[rest..], n))
}
