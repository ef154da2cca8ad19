// What is compared of two operations or two blocks by themselves, before they are mapped: the first half of `op_eq_map` and of
// `block_eq_map`.
ghost use Rattle.std.specs.Prelude.{◌&&◌, map, ◌≡◌, ◌<◌, eqb, length};
ghost use Rattle.rules.specs.Lists.{same_list};
ghost use Rattle.rules.specs.declared.types.Owner.TheVariants.{Op as of_op};
ghost use Rattle.rules.specs.Shells.{unignored_location, same_location, same_shells};
ghost use Rattle.rules.specs.Types.{present};
ghost use Rattle.layout.specs.Columns.{buffer_length, columns};
ghost use Rattle.layout.specs.Reading.{op_count};
ghost use Rattle.fragments.specs.Index.{list_in, IsIndex};
ghost use Rattle.fragments.specs.Options.{options_of, renamed_under};
ghost use Rattle.fragments.specs.Rows.{RowFits, RowOf, row_types};
ghost use Rattle.fragments.specs.View.{options_in, store_read};
ghost use Rattle.equivalence.specs.Rows.{same_heads, same_bare_rows, same_plainly, same_closely, same_rows};

use crate::attributes::attributes_eq;
use crate::verdicts::Pair;
use fragments::lookup::types_eq;
use fragments::rows::op_head;
use fragments::types::{OpHeader, ShellRow};
use fragments::view::StoreView;
use layout::columns::{StoreWords, VALUE_TYPE, words};
use rules::types::Ignore;

// Two operations have the same kind, and as many regions, successors and operands: the derived `==`, in the rules' words.
#[tactic(auto, using(crate::proofs::Alike::heads_same))]
fn heads_eq(l: OpHeader, r: OpHeader) -> bool
    ensures { result ≡ same_heads l r }
{
    l == r
}

// Two locations are equal, or locations are ignored.
#[tactic(auto, using(crate::proofs::Alike::location_ignored, crate::proofs::Alike::location_compared))]
fn locations_eq(ignore: Ignore, l: u32, r: u32) -> bool
    ensures { result ≡ same_location (unignored_location ignore l) (unignored_location ignore r) }
{
    ignore.locations || l == r
}

// The types of a row's values, as the store has them.
fn types_of(store: &StoreWords, row: ShellRow) -> &[u32]
    requires { RowFits (columns store.now) row }
    ensures { result.now ≡ row_types (columns store.now) row }
{
    words(store, VALUE_TYPE, row.value, row.value + row.values)
}

// Two lists of types are equal. They are short, mostly of one type, and pairs are compared faster than by the library's `==` of slices, which
// is a call.
fn same_types(l: &[u32], r: &[u32]) -> bool
    ensures { result ≡ same_list eqb l.now r.now }
{
    l.len() == r.len() && l.iter().zip(r).all(|(x, y)| x == y)
}

// The values of two rows have the same present types.
fn row_types_eq(store: &StoreWords, index: &[u32], l: ShellRow, r: ShellRow) -> bool
    requires index { IsIndex index.now }
    requires left_fits { RowFits (columns store.now) l }
    requires right_fits { RowFits (columns store.now) r }
    ensures { result ≡ same_list eqb (map (present (list_in index.now)) (row_types (columns store.now) l)) (map (present (list_in index.now)) (row_types (columns store.now) r)) }
{
    types_eq(index, types_of(store, l), types_of(store, r))
}

// What operations and blocks have in common besides types and attributes is equal: numbers of values, and locations.
#[tactic(auto, unfolding(crate::specs::Rows::same_bare_rows, rules::specs::Lists::every))]
fn bare_rows_eq(ignore: Ignore, l: ShellRow, r: ShellRow) -> bool
    ensures { result ≡ same_bare_rows ignore l r }
{
    l.values == r.values && locations_eq(ignore, l.location, r.location)
}

// Neither of two rows has attributes.
fn no_attributes(l: ShellRow, r: ShellRow) -> bool
    ensures { result ≡ (eqb l.attributes 0 && eqb r.attributes 0) }
{
    (l.attributes == 0) & (r.attributes == 0)
}

// Types and attributes are equal at first sight: the types as the store has them are, and there are no attributes.
#[tactic(auto, unfolding(crate::specs::Rows::same_plainly))]
fn plainly_eq(store: &StoreWords, l: ShellRow, r: ShellRow) -> bool
    requires left_fits { RowFits (columns store.now) l }
    requires right_fits { RowFits (columns store.now) r }
    ensures { result ≡ same_plainly (columns store.now) l r }
{
    no_attributes(l, r) && same_types(types_of(store, l), types_of(store, r))
}

// Types and attributes are equal. This is called by `rows_eq` and by `op_shells_eq`: were there one call, the look-ups and the loop over
// attributes would become a part of everything around them, and slow it down.
#[tactic(auto, unfolding(crate::specs::Rows::same_closely, rules::specs::Lists::every))]
fn closely_eq(store: &StoreWords, index: &[u32], ignore: Ignore, l: ShellRow, r: ShellRow) -> bool
    requires index { IsIndex index.now }
    requires left_fits { RowFits (columns store.now) l }
    requires right_fits { RowFits (columns store.now) r }
    ensures { result ≡ same_closely (columns store.now) (options_of ignore index.now) l r }
{
    let lend = l.slot + l.attributes;
    let rend = r.slot + r.attributes;
    row_types_eq(store, index, l, r) && attributes_eq(store, ignore, l.slot, lend, r.slot, rend)
}

// What operations and blocks have in common is equal, and this is all that is compared of two blocks.
#[tactic(auto, using(crate::proofs::Alike::rows_unlike, crate::proofs::Alike::rows_plain, crate::proofs::Alike::rows_left))]
pub fn rows_eq(store: &StoreWords, index: &[u32], ignore: Ignore, l: ShellRow, r: ShellRow) -> bool
    requires index { IsIndex index.now }
    requires left_fits { RowFits (columns store.now) l }
    requires right_fits { RowFits (columns store.now) r }
    ensures { result ≡ same_rows (columns store.now) (options_of ignore index.now) l r }
{
    bare_rows_eq(ignore, l, r)
        && (plainly_eq(store, l, r) || closely_eq(store, index, ignore, l, r))
}

// What two operations have by themselves is equal; `l` and `r` are their rows.
pub fn op_shells_eq(view: &StoreView, pair: Pair, l: ShellRow, r: ShellRow) -> bool
    requires lhs_bound { pair.lhs < op_count (columns view.now.store.now) }
    requires rhs_bound { pair.rhs < op_count (columns view.now.store.now) }
    requires left_row { RowOf (columns view.now.store.now) (of_op pair.lhs) l }
    requires right_row { RowOf (columns view.now.store.now) (of_op pair.rhs) r }
    ensures { result ≡ same_shells (renamed_under (options_in view.now) (store_read view.now)) view.now.ignore (of_op pair.lhs) (of_op pair.rhs) }
{
    heads_eq(op_head(view.store, pair.lhs), op_head(view.store, pair.rhs))
        && bare_rows_eq(view.ignore, l, r)
        && (plainly_eq(view.store, l, r) || closely_eq(view.store, view.index, view.ignore, l, r))
}
