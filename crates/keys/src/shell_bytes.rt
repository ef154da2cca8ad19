// Shells: what a key holds of an operation or a block by itself.
ghost use Rattle.fragments.specs.Options.{options_of};
ghost use Rattle.fragments.specs.View.{options_in, store_read};
ghost use Rattle.std.specs.Prelude.{map, ◌++◌, ◌≡◌, ◌<◌, length};
ghost use Rattle.rules.specs.declared.types.Owner.TheVariants.{Op as of_op, Block as of_block};
ghost use Rattle.rules.specs.Shells.{unignored_location};
ghost use Rattle.rules.specs.Types;
ghost use Rattle.rules.specs.Hash.{leaf, count, location_bytes, list_bytes, shell_bytes};
ghost use Rattle.layout.specs.Columns.{buffer_length, columns};
ghost use Rattle.layout.specs.Reading.{op_count, block_count};
ghost use Rattle.fragments.specs.Index.{list_in, IsIndex};
ghost use Rattle.fragments.specs.Rows.{RowFits, row_shell};
ghost use Rattle.keys.specs.Put.{Put, place_bytes, owner_bytes};

use crate::attributes::put_attributes;
use crate::numbers::{put_count, put_leaf};
use fragments::lookup::present;
use fragments::rows::{block_row, op_regions, op_row};
use fragments::types::ShellRow;
use fragments::view::StoreView;
use layout::columns::{OP_KIND, StoreWords, VALUE_TYPE, at, words};
use rules::types::Ignore;

// A location, unless locations are ignored.
fn put_location(key: &mut [u8], ignore: Ignore, location: u32) -> usize
    ensures { Put (location_bytes (unignored_location ignore location)) key.old key.new result }
{
    if ignore.locations {
        return 0;
    }
    put_leaf(key, location)
}

// The present type of a value. Where its 4 bytes don't fit nothing is looked up.
fn put_type(index: &[u32], key: &mut [u8], t: u32) -> usize
    requires { IsIndex index.now }
    ensures { Put (leaf (Types.present (list_in index.now) t)) key.old key.new result }
{
    if key.len() < 4 {
        return 4;
    }
    put_leaf(key, present(index, t))
}

// How many types there are, then the present type of each.
fn put_types(index: &[u32], key: &mut [u8], types: &[u32]) -> usize
    requires { IsIndex index.now }
    ensures { Put (list_bytes count leaf (map (Types.present (list_in index.now)) types.now)) key.old key.new result }
{
    let mut at = put_count(key, types.len());
    for t in types {
        let rest = at.min(key.len());
        at = at.saturating_add(put_type(index, &mut key[rest..], *t));
    }
    at
}

// Location and attributes.
fn put_place(store: &StoreWords, key: &mut [u8], ignore: Ignore, row: ShellRow) -> usize
    requires { RowFits (columns store.now) row }
    ensures { Put (place_bytes (columns store.now) ignore row) key.old key.new result }
{
    let at = put_location(key, ignore, row.location);
    let rest = at.min(key.len());
    let end = row.slot + row.attributes;
    at.saturating_add(put_attributes(store, &mut key[rest..], ignore, row.slot, end))
}

// What operations and blocks have in common: location, attributes, and the types of the values.
pub fn put_row(
    store: &StoreWords,
    index: &[u32],
    key: &mut [u8],
    ignore: Ignore,
    row: ShellRow,
) -> usize
    requires index { IsIndex index.now }
    requires row_fits { RowFits (columns store.now) row }
    ensures { Put (shell_bytes count (row_shell (columns store.now) (options_of ignore index.now) row)) key.old key.new result }
{
    let own = words(store, VALUE_TYPE, row.value, row.value + row.values);
    let at = put_place(store, key, ignore, row);
    let rest = at.min(key.len());
    at.saturating_add(put_types(index, &mut key[rest..], own))
}

// What only an operation has: its kind, and how many regions it has, or neither.
fn put_head(key: &mut [u8], kind: u32, regions: usize) -> usize
    ensures { Put (leaf kind ++ count regions) key.old key.new result }
{
    if key.len() < 12 {
        return 12;
    }
    let at = put_leaf(key, kind);
    let rest = at.min(key.len());
    at.saturating_add(put_count(&mut key[rest..], regions))
}

// What an operation is, apart from all numbering: its kind, how many regions it has, and its row.
pub fn put_own_op(view: &StoreView, key: &mut [u8], n: usize) -> usize
    requires n_bound { n < op_count (columns view.now.store.now) }
    ensures { Put (owner_bytes (store_read view.now) (options_in view.now) (of_op n)) key.old key.new result }
{
    let second = put_head(key, at(view.store, OP_KIND, n), op_regions(view.store, n));
    let rest = second.min(key.len());
    let row = op_row(view.store, n);
    let key = &mut key[rest..];
    second.saturating_add(put_row(view.store, view.index, key, view.ignore, row))
}

// What a block is.
pub fn put_own_block(view: &StoreView, key: &mut [u8], n: usize) -> usize
    requires n_bound { n < block_count (columns view.now.store.now) }
    ensures { Put (owner_bytes (store_read view.now) (options_in view.now) (of_block n)) key.old key.new result }
{
    let row = block_row(view.store, n);
    put_row(view.store, view.index, key, view.ignore, row)
}
