// The operations inside a fragment, included in a tally: an operation is included itself, then those in its regions. `left` is how many regions,
// one in another, may still be entered, and falls.
ghost use Rattle.std.specs.Prelude.{true, ◌≡◌, ◌<◌};
ghost use Rattle.rules.specs.Fragments.{exists};
ghost use Rattle.layout.specs.Columns.{columns};
ghost use Rattle.layout.specs.Reading.{op_count, block_count, region_count, store_in};
ghost use Rattle.layout.specs.Soundness.{IsSound};
ghost use Rattle.listing.specs.Tally.{region_ops, block_ops, op_ops, included_all, Tallied};

use crate::counting::include;
use crate::places::Tally;
use fragments::order::BlocksIn;
use fragments::types::Blocks;
use layout::columns::{OP_REGION_END, OP_REGION_FIRST, StoreWords, number};
use layout::ops_in::OpsIn;
use rules::types::Sort;

// A walk enters at most 33 regions, one in another.
const LEVELS: u32 = 33;

// A walk through right fragments of a sound store, found equal or not.
#[derive(Clone, Copy)]
struct Walk<'a> {
    store: &'a StoreWords,
    found: bool,
    ghost sound: { IsSound store.now },
}

impl<'a> Walk<'a> {
    // The operations of a block, with all inside them.
    #[cycle(include)]
    fn include_block(&self, tally: &mut Tally, b: usize, left: u32)
        requires { b < block_count (columns self.now.store.now) }
        ensures { tally.new ≡ included_all self.now.found (block_ops left (store_in self.now.store.now) b) tally.old }
    {
        for n in OpsIn::new(self.store, b) {
            self.include_op(tally, n, left);
        }
    }

    // Those of a region.
    #[cycle(include)]
    fn include_region(&self, tally: &mut Tally, r: usize, left: u32)
        requires { r < region_count (columns self.now.store.now) }
        ensures { tally.new ≡ included_all self.now.found (region_ops left (store_in self.now.store.now) r) tally.old }
    {
        if left == 0 {
            return;
        }
        for b in BlocksIn::new(self.store, Blocks::InRegion(r)) {
            self.include_block(tally, b, left - 1);
        }
    }

    // An operation, and those in its regions.
    #[cycle(include)]
    fn include_op(&self, tally: &mut Tally, n: usize, left: u32)
        requires { n < op_count (columns self.now.store.now) }
        ensures { tally.new ≡ included_all self.now.found (op_ops left (store_in self.now.store.now) n) tally.old }
    {
        include(tally, n, self.found);
        let first = number(self.store, OP_REGION_FIRST, n);
        let end = number(self.store, OP_REGION_END, n);
        for r in first..end {
            self.include_region(tally, r, left);
        }
    }
}

// The operations inside a right fragment, found equal or not.
pub fn include_fragment(store: &StoreWords, tally: &mut Tally, sort: Sort, n: u32, found: bool)
    requires sound { IsSound store.now }
    requires n_value { exists (store_in store.now) sort n ≡ true }
    ensures { Tallied (store_in store.now) sort n found tally.old tally.new }
{
    let walk = Walk { store, found };
    match sort {
        Sort::Op => walk.include_op(tally, n as usize, LEVELS),
        Sort::Block => walk.include_block(tally, n as usize, LEVELS),
        Sort::Region => walk.include_region(tally, n as usize, LEVELS),
    }
}
