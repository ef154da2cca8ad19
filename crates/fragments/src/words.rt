// Walk numbers: each value and block that is defined within a fragment gets one, in the order in which a walk comes to them. They are kept by
// owner: the values of an operation or a block stand one after the other in the store, and get their numbers one after the other, so that one
// word for each owner tells them all.
ghost use Rattle.std.specs.Prelude.{◌≡◌, ◌+◌, ◌<◌, ◌≤◌, [], ◌∷◌, slice_index};
ghost use Rattle.rules.specs.Store.{max_blocks};
ghost use Rattle.rules.specs.declared.types.Owner.TheVariants.{Op as of_op, Block as of_block};
ghost use Rattle.rules.specs.Fragments.{shell};
ghost use Rattle.layout.specs.Columns.{columns};
ghost use Rattle.layout.specs.Reading.{op_count, block_count, value_count, store_in};
ghost use Rattle.layout.specs.Soundness.{IsSound};
ghost use Rattle.fragments.specs.Words.{numbers_length, define_at, with_run, Named, NamesValue, NamesBlock};
ghost use Rattle.fragments.specs.Numbered.{Numbers, DefinitionsFit};

use crate::rows::{block_row, op_row};
use layout::columns::{StoreWords, VALUE_OWNER, number};
use rules::types::Name;

// How many words there are, all 0 at the start. First come those of owners, by the owner's code in the column of owners: an operation's at
// even places, a block's at odd ones. The odd places from BLOCK_NUMBERS on are for the blocks' own numbers.
pub const NUMBERS_LENGTH: usize = 1026;

// A word is 0 where nothing is numbered, and no Option: this is fixed memory that is cleared for each walk, two bytes for each owner.
pub type WalkNumbers = [u16; NUMBERS_LENGTH];

const BLOCK_NUMBERS: usize = 513;

// Where the words are that tell how many values and how many blocks are numbered.
pub const VALUES_NUMBERED: usize = 1024;

pub const BLOCKS_NUMBERED: usize = 1025;

// Word i becomes w, unless it is set already.
fn define(numbers: &mut WalkNumbers, i: usize, w: u16)
    requires { i < numbers_length }
    ensures { numbers.new ≡ define_at numbers.old i w }
{
    if numbers[i] == 0 {
        numbers[i] = w;
    }
}

// The next walk numbers, as the word at `counter` counts them, go to a run of `count` numbers of the store, from `first` on. The word at
// `place` tells this by how far apart the two are: walk number less store number, plus 2048, so that it isn't 0.
fn define_run(numbers: &mut WalkNumbers, place: usize, counter: usize, first: usize, count: usize)
    requires place_lt_numbers_length { place < numbers_length }
    requires counter_lt_numbers_length { counter < numbers_length }
    requires first_bound { first ≤ 2048 }
    requires count_bound { slice_index numbers.old counter + count ≤ 2048 }
    ensures { numbers.new ≡ with_run numbers.old place counter first count }
{
    let next = numbers[counter];
    define(numbers, place, next + 2048 - first as u16);
    numbers[counter] = next + count as u16;
}

// Record that an operation's results are defined within the fragment.
pub fn define_op(store: &StoreWords, numbers: &mut WalkNumbers, n: usize)
    requires sound { IsSound store.now }
    requires n_bound { n < op_count (columns store.now) }
    requires definitions_fit { DefinitionsFit (store_in store.now) (shell (of_op n) ∷ []) numbers.old }
    ensures { Numbers (store_in store.now) (shell (of_op n) ∷ []) numbers.old numbers.new }
{
    let row = op_row(store, n);
    define_run(numbers, 2 * n, VALUES_NUMBERED, row.value, row.values);
}

// Record that a block and its arguments are.
pub fn define_block(store: &StoreWords, numbers: &mut WalkNumbers, b: usize)
    requires sound { IsSound store.now }
    requires b_bound { b < block_count (columns store.now) }
    requires definitions_fit { DefinitionsFit (store_in store.now) (shell (of_block b) ∷ []) numbers.old }
    ensures { Numbers (store_in store.now) (shell (of_block b) ∷ []) numbers.old numbers.new }
{
    define_run(numbers, BLOCK_NUMBERS + 2 * b, BLOCKS_NUMBERED, b, 1);
    let row = block_row(store, b);
    define_run(numbers, 2 * b + 1, VALUES_NUMBERED, row.value, row.values);
}

// How a use of n is named, by the word that tells its walk number.
fn name_by(word: u16, n: u32) -> Name
    requires { n < 2048 }
    ensures { Named word n result }
{
    if word == 0 {
        return Name::StoreNumber(n);
    }
    Name::WalkNumber((word as u32 + n).wrapping_sub(2048))
}

// How a use of value v is named.
pub fn value_name(store: &StoreWords, numbers: &WalkNumbers, v: u32) -> Name
    requires sound { IsSound store.now }
    requires v_bound { v < value_count (columns store.now) }
    ensures { NamesValue (store_in store.now) numbers.now v result }
{
    let owner = number(store, VALUE_OWNER, v as usize);
    name_by(numbers[owner], v)
}

// How a use of block b, as a successor, is named.
pub fn block_name(numbers: &WalkNumbers, b: u32) -> Name
    requires { b < max_blocks }
    ensures { NamesBlock numbers.now b result }
{
    name_by(numbers[BLOCK_NUMBERS + 2 * b as usize], b)
}
