// The copier's mapping: what the original defines gets the next numbers, in the order of the walk.
ghost use Rattle.std.specs.Prelude.{◌≡◌, ◌+◌, ◌≤◌, true, length, None};
ghost use Rattle.rules.specs.Store.{totals_hold, max_values};
ghost use Rattle.rules.specs.Copying.{copied, copy_mapping};
ghost use Rattle.layout.specs.Columns.{columns};
ghost use Rattle.layout.specs.Reading.{consecutive, store_in};
ghost use Rattle.layout.specs.Soundness.{IsSound};
ghost use Rattle.equivalence.specs.MappingWords.{mapping_length, mapping_of, values_mapped};
ghost use Rattle.copying.specs.Steps.{StepThere, step_owners};
ghost use Rattle.copying.specs.Images.{CopiesFit, owners_entered, owners_copied};

use crate::original::Original;
use crate::steps::Step;
use equivalence::mapping::{MappingWords, NO_IMAGE, map_block, map_op, map_values};
use fragments::rows::{block_row, op_row};
use fragments::types::ShellRow;
use layout::columns::{BLOCKS, COUNTS, OPS, StoreWords, VALUES, number};

// How many there are of each, with those copied so far: the numbers that the next ones get.
#[derive(Clone, Copy)]
struct Copied {
    ops: usize,
    blocks: usize,
    values: usize,
}

// A row's values get the next numbers.
fn enter_values(mapping: &mut MappingWords, next: Copied, row: ShellRow) -> Copied
    requires values_bound { row.value + row.values ≤ max_values }
    requires copies_bound { next.values + row.values ≤ max_values }
    ensures entered { mapping_of mapping.new ≡ values_mapped (mapping_of mapping.old) (consecutive row.value row.values) (consecutive next.values row.values) }
    ensures counted { result ≡ record next { values = next.values + row.values } }
{
    map_values(mapping, row.value, next.values as u32, row.values);
    Copied {
        values: next.values + row.values,
        ..next
    }
}

// What a step defines gets the next numbers: an operation and its results, or a block and its arguments.
fn enter_step(store: &StoreWords, mapping: &mut MappingWords, next: Copied, step: Step) -> Copied
    requires sound { IsSound store.now }
    requires there { StepThere (columns store.now) step }
    requires copies_fit { CopiesFit (store_in store.now) (step_owners step) next }
    ensures entered { mapping_of mapping.new ≡ owners_entered (store_in store.now) (step_owners step) next (mapping_of mapping.old) }
    ensures counted { result ≡ owners_copied (store_in store.now) (step_owners step) next }
{
    match step {
        Step::OpShell(m) => {
            map_op(mapping, m as usize, next.ops as u32);
            let counted = Copied {
                ops: next.ops + 1,
                ..next
            };
            enter_values(mapping, counted, op_row(store, m as usize))
        }
        Step::BlockShell(b) => {
            map_block(mapping, b as usize, next.blocks as u32);
            let counted = Copied {
                blocks: next.blocks + 1,
                ..next
            };
            enter_values(mapping, counted, block_row(store, b as usize))
        }
        Step::Names(_) => next,
    }
}

// Every entry is replaced, none included.
pub fn enter_copies(original: &Original, mapping: &mut MappingWords)
    requires { totals_hold (copied (store_in original.now.store.now) original.now.n None) ≡ true }
    ensures { mapping_of mapping.new ≡ copy_mapping (store_in original.now.store.now) original.now.n }
{
    mapping.fill(NO_IMAGE);
    let mut next = Copied {
        ops: number(original.store, COUNTS, OPS),
        blocks: number(original.store, COUNTS, BLOCKS),
        values: number(original.store, COUNTS, VALUES),
    };
    for step in original.steps {
        next = enter_step(original.store, mapping, next, *step);
    }
}
