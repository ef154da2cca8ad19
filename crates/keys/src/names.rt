// What an operation uses: each operand and successor by its name, behind how many there are.
ghost use Rattle.std.specs.Prelude.{◌≡◌, ◌<◌};
ghost use Rattle.rules.specs.Hash.{name_bytes};
ghost use Rattle.layout.specs.Columns.{columns};
ghost use Rattle.layout.specs.Reading.{op_count, store_in};
ghost use Rattle.layout.specs.Soundness.{IsSound};
ghost use Rattle.keys.specs.Put.{Put};
ghost use Rattle.keys.specs.Written.{NamesAllowed, PutNames, PutsNames};

use crate::numbers::{put_count, put_store_number, put_walk_number};
use fragments::words::{WalkNumbers, block_name, value_name};
use layout::columns::StoreWords;
use layout::slices::{operands_of, successors_of};
use rules::types::Name;

// A use by its name: tag 0 and the walk number, or tag 1 and the number in the store.
fn put_name(key: &mut [u8], name: Name) -> usize
    ensures { Put (name_bytes name) key.old key.new result }
{
    match name {
        Name::WalkNumber(i) => put_walk_number(key, i),
        Name::StoreNumber(n) => put_store_number(key, n),
    }
}

// How many uses there are, then each, as it is named.
pub fn put_uses<F: Fn(u32) -> Name>(key: &mut [u8], list: &[u32], name_of: F) -> usize
    requires { NamesAllowed (F.pre name_of) list.now }
    ensures { PutNames (F.post name_of) list.now key.old key.new result }
{
    let mut at = put_count(key, list.len());
    for n in list {
        let rest = at.min(key.len());
        at = at.saturating_add(put_name(&mut key[rest..], name_of(*n)));
    }
    at
}

// What an operation uses: its operands, then its successors.
pub fn put_names(store: &StoreWords, numbers: &WalkNumbers, key: &mut [u8], n: usize) -> usize
    requires sound { IsSound store.now }
    requires n_bound { n < op_count (columns store.now) }
    ensures { PutsNames (store_in store.now) n numbers.now key.old key.new result }
{
    let operands = operands_of(store, n);
    let at = put_uses(key, operands, |v| value_name(store, numbers, v));
    let rest = at.min(key.len());
    let successors = successors_of(store, n);
    at.saturating_add(put_uses(&mut key[rest..], successors, |b| block_name(numbers, b)))
}
