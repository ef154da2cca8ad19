// The steps of an operation's walk, one behind the other: the shells of what it defines, and of each operation what it names.
ghost use Rattle.std.specs.Prelude.{◌≡◌, ◌<◌, ◌≤◌, List, [], ◌∷◌, ◌++◌, length, take};
ghost use Rattle.std.specs.List.{flat_map};
ghost use Rattle.rules.specs.Fragments.{steps};
ghost use Rattle.rules.specs.declared.types.Sort.TheVariants.{Op as op};
ghost use Rattle.layout.specs.Columns.{columns};
ghost use Rattle.layout.specs.Reading.{op_count, block_count, store_in};
ghost use Rattle.layout.specs.Soundness.{IsSound};
ghost use Rattle.fragments.specs.Order.{block_list, BlocksExist};
ghost use Rattle.fragments.specs.Parts.{block_shells, op_shells, full_steps, ops_in_full, listed_steps};
ghost use Rattle.copying.specs.Steps.{most_steps, AreSteps, StepsFit, Listed};
ghost use Rattle.copying.specs.declared.steps.Step.{Step};

use fragments::order::BlocksIn;
use fragments::types::Blocks;
use layout::columns::{OP_REGION_END, OP_REGION_FIRST, StoreWords, number};
use layout::ops_in::OpsIn;
use std::marker::Model;

// A step of a walk that tells of something: the shell of an operation or a block, or what an operation names.
#[derive(Clone, Copy)]
pub enum Step {
    OpShell(u32),
    BlockShell(u32),
    Names(u32),
}

// 512 operations' shells and names, and 256 blocks' shells.
pub const MOST_STEPS: usize = 1280;

// The steps of a walk, the first step first.
#[derive(Drop)]
pub struct Walk {
    steps: [Step; MOST_STEPS],
    len: usize,
}

// Clauses see the steps that are there.
impl Model for Walk {
    ghost Value = { List Step };

    ghost view = { λ w. take w.len w.steps };

    ghost invariant = { λ w. w.len ≤ most_steps };
}

impl Walk {
    fn new() -> Self
        ensures { result ≡ [] }
    {
        Walk {
            steps: [Step::OpShell(0); MOST_STEPS],
            len: 0,
        }
    }

    fn push(&mut self, step: Step)
        requires { length self.old < most_steps }
        ensures { self.new ≡ self.old ++ step ∷ [] }
    {
        self.steps[self.len] = step;
        self.len += 1;
    }

    pub fn as_slice(&self) -> &[Step]
        ensures { result.now ≡ self.now }
    {
        &self.steps[..self.len]
    }
}

// Pass 1: every block's shell.
fn list_block_shells(store: &StoreWords, walk: &mut Walk, blocks: Blocks)
    requires sound { IsSound store.now }
    requires blocks_exist { BlocksExist (columns store.now) blocks }
    requires steps_fit { StepsFit (block_shells (block_list (store_in store.now) blocks)) walk.old }
    ensures { Listed (block_shells (block_list (store_in store.now) blocks)) walk.old walk.new }
{
    for b in BlocksIn::new(store, blocks) {
        walk.push(Step::BlockShell(b as u32));
    }
}

// Pass 2 of one block: the shells of its operations.
fn list_op_shells_in(store: &StoreWords, walk: &mut Walk, b: usize)
    requires sound { IsSound store.now }
    requires b_bound { b < block_count (columns store.now) }
    requires steps_fit { StepsFit (op_shells (store_in store.now) b) walk.old }
    ensures { Listed (op_shells (store_in store.now) b) walk.old walk.new }
{
    for n in OpsIn::new(store, b) {
        walk.push(Step::OpShell(n as u32));
    }
}

// Pass 2: the shells of every block's operations.
fn list_op_shells(store: &StoreWords, walk: &mut Walk, blocks: Blocks)
    requires sound { IsSound store.now }
    requires blocks_exist { BlocksExist (columns store.now) blocks }
    requires steps_fit { StepsFit (flat_map (op_shells (store_in store.now)) (block_list (store_in store.now) blocks)) walk.old }
    ensures { Listed (flat_map (op_shells (store_in store.now)) (block_list (store_in store.now) blocks)) walk.old walk.new }
{
    for b in BlocksIn::new(store, blocks) {
        list_op_shells_in(store, walk, b);
    }
}

// An operation in full: what it names, and then its regions.
#[cycle(list_full)]
fn list_op_full(store: &StoreWords, walk: &mut Walk, n: usize)
    requires sound { IsSound store.now }
    requires n_bound { n < op_count (columns store.now) }
    requires steps_fit { StepsFit (full_steps (store_in store.now) n) walk.old }
    ensures { Listed (full_steps (store_in store.now) n) walk.old walk.new }
{
    walk.push(Step::Names(n as u32));
    for r in number(store, OP_REGION_FIRST, n)..number(store, OP_REGION_END, n) {
        list_blocks_full(store, walk, Blocks::InRegion(r));
    }
}

// A list of blocks: all block shells, all operation shells, all full operations.
#[cycle(list_full)]
fn list_blocks_full(store: &StoreWords, walk: &mut Walk, blocks: Blocks)
    requires sound { IsSound store.now }
    requires blocks_exist { BlocksExist (columns store.now) blocks }
    requires steps_fit { StepsFit (listed_steps (store_in store.now) (block_list (store_in store.now) blocks)) walk.old }
    ensures { Listed (listed_steps (store_in store.now) (block_list (store_in store.now) blocks)) walk.old walk.new }
{
    list_block_shells(store, walk, blocks);
    list_op_shells(store, walk, blocks);
    for b in BlocksIn::new(store, blocks) {
        list_ops_full(store, walk, b);
    }
}

// Pass 3 of one block: its operations in full.
#[cycle(list_full)]
fn list_ops_full(store: &StoreWords, walk: &mut Walk, b: usize)
    requires sound { IsSound store.now }
    requires b_bound { b < block_count (columns store.now) }
    requires steps_fit { StepsFit (ops_in_full (store_in store.now) b) walk.old }
    ensures { Listed (ops_in_full (store_in store.now) b) walk.old walk.new }
{
    for n in OpsIn::new(store, b) {
        list_op_full(store, walk, n);
    }
}

// The steps of an operation's walk: its shell, then the operation in full.
pub fn list_steps(store: &StoreWords, n: usize) -> Walk
    requires sound { IsSound store.now }
    requires n_bound { n < op_count (columns store.now) }
    ensures { AreSteps store.now n result }
{
    let mut walk = Walk::new();
    walk.push(Step::OpShell(n as u32));
    list_op_full(store, &mut walk, n);
    walk
}
