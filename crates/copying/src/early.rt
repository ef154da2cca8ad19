// Does an operation name something inside the original that the walk hasn't numbered yet? The steps are gone through once more, with walk
// numbers.
ghost use Rattle.std.specs.Prelude.{◌≡◌, ◌<◌, [], ◌∷◌};
ghost use Rattle.rules.specs.Fragments.{names, steps as steps_of, defines_values, defines_blocks};
ghost use Rattle.rules.specs.declared.types.Sort.TheVariants.{Op as op};
ghost use Rattle.rules.specs.Hash.{Numbering, no_numbers};
ghost use Rattle.rules.specs.Copying.{numbered_names, step_in_time, in_time};
ghost use Rattle.layout.specs.Columns.{columns};
ghost use Rattle.layout.specs.Reading.{op_count, block_count, value_count, store_in};
ghost use Rattle.fragments.specs.Words.{Stands};

use crate::original::Original;
use crate::steps::Step;
use fragments::inside::Fragment;
use fragments::words::{
    NUMBERS_LENGTH, WalkNumbers, block_name, define_block, define_op, value_name,
};
use layout::slices::{operands_of, successors_of};
use rules::types::{Name, Sort};

// Value v is numbered, or lies outside the whole.
fn value_in_time(whole: &Fragment, numbers: &WalkNumbers, v: u32) -> bool
    requires { v < value_count (columns whole.now.store.now) }
    ensures { (N : Numbering) → Stands (store_in whole.now.store.now) N numbers.now → result ≡ numbered_names (defines_values (store_in whole.now.store.now) whole.now.sort whole.now.n) N.values (v ∷ []) }
{
    match value_name(whole.store, numbers, v) {
        Name::WalkNumber(_) => true,
        Name::StoreNumber(_) => !whole.value_inside(v as usize),
    }
}

// Block b likewise.
fn block_in_time(whole: &Fragment, numbers: &WalkNumbers, b: u32) -> bool
    requires { b < block_count (columns whole.now.store.now) }
    ensures { (N : Numbering) → Stands (store_in whole.now.store.now) N numbers.now → result ≡ numbered_names (defines_blocks (store_in whole.now.store.now) whole.now.sort whole.now.n) N.blocks (b ∷ []) }
{
    match block_name(numbers, b) {
        Name::WalkNumber(_) => true,
        Name::StoreNumber(_) => !whole.block_inside(b as usize),
    }
}

// What operation m names.
fn names_in_time(original: &Original, numbers: &WalkNumbers, m: usize) -> bool
    requires { m < op_count (columns original.now.store.now) }
    ensures { (N : Numbering) → Stands (store_in original.now.store.now) N numbers.now → result ≡ step_in_time (store_in original.now.store.now) original.now.n (names m) N }
{
    let whole = Fragment {
        store: original.store,
        sort: Sort::Op,
        n: original.n,
    };
    for v in operands_of(original.store, m) {
        if !value_in_time(&whole, numbers, *v) {
            return false;
        }
    }
    for b in successors_of(original.store, m) {
        if !block_in_time(&whole, numbers, *b) {
            return false;
        }
    }
    true
}

// All that the walk comes to.
pub fn in_time(original: &Original) -> bool
    ensures { result ≡ in_time (store_in original.now.store.now) original.now.n (steps_of (store_in original.now.store.now) op original.now.n) no_numbers }
{
    let mut numbers: WalkNumbers = [0; NUMBERS_LENGTH];
    for step in original.steps {
        match *step {
            Step::OpShell(m) => define_op(original.store, &mut numbers, m as usize),
            Step::BlockShell(b) => define_block(original.store, &mut numbers, b as usize),
            Step::Names(m) => {
                if !names_in_time(original, &numbers, m as usize) {
                    return false;
                }
            }
        }
    }
    true
}
