// The key of a fragment on a sound store, under an index of renamed types, and how large a fragment is. Into no bytes at all a key is only
// counted. So where it may not fit, its length is found first, and nothing is written before a refusal.
ghost use Rattle.std.specs.Prelude.{List, ℕ, true, ◌≡◌, ◌<◌, leb, length};
ghost use Rattle.rules.specs.Fragments.{steps};
ghost use Rattle.rules.specs.declared.types.Sort.TheVariants.{Op as op};
ghost use Rattle.rules.specs.Types.{renamed};
ghost use Rattle.rules.specs.Keys;
ghost use Rattle.rules.specs.Extents.{extent};
ghost use Rattle.layout.specs.Columns.{columns};
ghost use Rattle.layout.specs.Reading.{op_count, store_in};
ghost use Rattle.layout.specs.Soundness.{IsSound};
ghost use Rattle.fragments.specs.Index.{list_in};
ghost use Rattle.fragments.specs.Options.{Readable};
ghost use Rattle.fragments.specs.Numbered.{DefinitionsFit};
ghost use Rattle.keys.specs.Put.{Put};
ghost use Rattle.fragments.specs.View.{store_read, options_in};
ghost use Rattle.keys.specs.Written.{place, Puts};
ghost use Rattle.keys.specs.Calls.{keyed_of, KeyAnswers};
ghost use Rattle.keys.specs.Extents.{extent_means};

use crate::counting::{lone_extent, walked_extent};
use crate::regionless::put_regionless;
use crate::shells::put_op_shell;
use crate::types::Extent;
use crate::walk::{put_blocks_full, put_op_full};
use fragments::regionless::holds_nothing;
use fragments::sizes::fragment_size;
use fragments::sorts::exists;
use fragments::types::Blocks;
use fragments::view::StoreView;
use fragments::words::{NUMBERS_LENGTH, WalkNumbers};
use layout::columns::StoreWords;
use rules::types::{Cause, Ignore, Sort};

// No key is longer.
pub const LONGEST_KEY: usize = 78344;

// An operation: its shell, then its operands, successors and nested regions.
fn put_op(view: &StoreView, numbers: &mut WalkNumbers, key: &mut [u8], n: usize) -> usize
    requires n_bound { n < op_count (columns view.now.store.now) }
    requires definitions_fit { DefinitionsFit (store_read view.now) (steps (store_read view.now) op n) numbers.old }
    ensures { Puts (store_read view.now) (options_in view.now) (steps (store_read view.now) op n) (place numbers.old key.old) (place numbers.new key.new) result }
{
    let at = put_op_shell(view, numbers, key, n);
    let rest = at.min(key.len());
    at.saturating_add(put_op_full(view, numbers, &mut key[rest..], n))
}

// A fragment by its sort. A block is a list of one block. (The walk that hashes has the same three cases, with other steps in each.)
fn put_steps(
    view: &StoreView,
    numbers: &mut WalkNumbers,
    key: &mut [u8],
    sort: Sort,
    n: usize,
) -> usize
    requires n_value { Rattle.rules.specs.Fragments.exists (store_read view.now) sort n ≡ true }
    requires definitions_fit { DefinitionsFit (store_read view.now) (steps (store_read view.now) sort n) numbers.old }
    ensures { Puts (store_read view.now) (options_in view.now) (steps (store_read view.now) sort n) (place numbers.old key.old) (place numbers.new key.new) result }
{
    match sort {
        Sort::Op => put_op(view, numbers, key, n),
        Sort::Block => put_blocks_full(view, numbers, key, Blocks::Single(n)),
        Sort::Region => put_blocks_full(view, numbers, key, Blocks::InRegion(n)),
    }
}

// A fragment's key, as far as it fits. Where an operation has no regions, no words are cleared to number what it defines.
fn put_fragment(view: &StoreView, key: &mut [u8], sort: Sort, n: usize) -> usize
    requires n_value { Rattle.rules.specs.Fragments.exists (store_read view.now) sort n ≡ true }
    ensures { Put (Keys.key (renamed (list_in view.now.index.now) (store_read view.now)) view.now.ignore sort n) key.old key.new result }
{
    if holds_nothing(view.store, sort, n) {
        return put_regionless(view, key, n);
    }
    let mut numbers = [0; NUMBERS_LENGTH];
    put_steps(view, &mut numbers, key, sort, n)
}

// The length of a fragment's key, which is the same under every list of types: it is written into no bytes, and no type is looked up.
pub fn key_length(store: &StoreWords, sort: Sort, n: usize, ignore: Ignore) -> usize
    requires sound { IsSound store.now }
    requires n_value { Rattle.rules.specs.Fragments.exists (store_in store.now) sort n ≡ true }
    ensures { (types : List ℕ) → result ≡ length (Keys.key (renamed types (store_in store.now)) ignore sort n) }
{
    let view = StoreView {
        store,
        index: &[],
        ignore,
    };
    put_fragment(&view, &mut [], sort, n)
}

// How large a fragment is: its key is written into no bytes, which tells its length and numbers what it defines, and its size is found.
pub fn fragment_extent(store: &StoreWords, sort: Sort, n: usize, ignore: Ignore) -> Extent
    requires sound { IsSound store.now }
    requires n_value { Rattle.rules.specs.Fragments.exists (store_in store.now) sort n ≡ true }
    ensures { extent_means result ≡ extent (store_in store.now) ignore sort n }
{
    if holds_nothing(store, sort, n) {
        return lone_extent(store, n, key_length(store, sort, n, ignore) as u32);
    }
    let view = StoreView {
        store,
        index: &[],
        ignore,
    };
    let mut numbers = [0; NUMBERS_LENGTH];
    let bytes = put_steps(&view, &mut numbers, &mut [], sort, n);
    walked_extent(&numbers, fragment_size(store, sort, n), bytes as u32)
}

// Whether a fragment's key fits into so many bytes. Where they are enough for any key, its length is not asked for.
fn key_fits(store: &StoreWords, room: usize, sort: Sort, n: usize, ignore: Ignore) -> bool
    requires sound { IsSound store.now }
    requires n_value { Rattle.rules.specs.Fragments.exists (store_in store.now) sort n ≡ true }
    ensures { (types : List ℕ) → result ≡ leb (length (Keys.key (renamed types (store_in store.now)) ignore sort n)) room }
{
    room >= LONGEST_KEY || key_length(store, sort, n, ignore) <= room
}

// Write the key of a fragment into lent bytes, unless it does not exist or its key does not fit.
pub fn fragment_key(
    store: &StoreWords,
    index: &[u32],
    lent: &mut [u8],
    sort: Sort,
    n: u32,
    ignore: Ignore,
) -> Result<u32, Cause>
    requires { Readable store.now index.now }
    ensures { KeyAnswers true store.now (list_in index.now) ignore sort n lent.old lent.new (keyed_of result) }
{
    if !exists(store, sort, n) {
        return Err(Cause::NotThere);
    }
    if !key_fits(store, lent.len(), sort, n as usize, ignore) {
        return Err(Cause::NoRoom);
    }
    let view = StoreView {
        store,
        index,
        ignore,
    };
    let bytes = put_fragment(&view, lent, sort, n as usize);
    Ok(bytes as u32)
}
