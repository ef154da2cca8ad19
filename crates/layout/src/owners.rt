// The owner of attributes: whether it exists, its slots, and how many keys it has.
ghost use Rattle.std.specs.Prelude.{◌≡◌, true, length};
ghost use Rattle.rules.specs.Store.{owner_exists};
ghost use Rattle.layout.specs.Columns.{buffer_length, columns};
ghost use Rattle.layout.specs.Reading.{slots_of, store_in};
ghost use Rattle.layout.specs.Soundness.{Arranged};
ghost use Rattle.layout.specs.Owners.{count_column, owner_number, key_count};

use crate::columns::{BLOCK_ATTRIBUTES, FIRST_BLOCK_SLOT, OP_ATTRIBUTES, StoreWords, number};
use crate::existing::{block_exists, op_exists};
use rules::types::Owner;

pub fn owner_exists(store: &StoreWords, owner: Owner) -> bool
    ensures { result ≡ owner_exists (store_in store.now) owner }
{
    match owner {
        Owner::Op(n) => op_exists(store, n),
        Owner::Block(b) => block_exists(store, b),
    }
}

// The column that has the owner's number of attributes.
pub fn count_column(owner: Owner) -> usize
    ensures { result ≡ count_column owner }
{
    match owner {
        Owner::Op(_) => OP_ATTRIBUTES,
        Owner::Block(_) => BLOCK_ATTRIBUTES,
    }
}

// The owner's number.
pub fn owner_number(owner: Owner) -> usize
    ensures { result ≡ owner_number owner }
{
    match owner {
        Owner::Op(n) => n as usize,
        Owner::Block(b) => b as usize,
    }
}

// The owner's first attribute slot.
pub fn first_slot(owner: Owner) -> usize
    ensures { result ≡ slots_of owner }
{
    match owner {
        Owner::Op(n) => 8 * n as usize,
        Owner::Block(b) => FIRST_BLOCK_SLOT + 8 * b as usize,
    }
}

// How many keys the owner has.
pub fn key_count(store: &StoreWords, owner: Owner) -> usize
    requires arranged { Arranged store.now }
    requires owner_value { owner_exists (store_in store.now) owner ≡ true }
    ensures { result ≡ key_count (columns store.now) owner }
{
    number(store, count_column(owner), owner_number(owner))
}
