// What lies inside a fragment: going up from it, one comes to the fragment.
ghost use Rattle.std.specs.Prelude.{◌≡◌, true};
ghost use Rattle.rules.specs.Fragments;
ghost use Rattle.layout.specs.Reading.{store_in};
ghost use Rattle.layout.specs.Soundness.{IsSound};

use layout::children::op_around;
use layout::columns::{BLOCK_REGION, OP_PARENT, REGION_OP, StoreWords, VALUE_OWNER, number};
use rules::types::Sort;

// A fragment of a sound store.
#[derive(Clone, Copy)]
pub struct Fragment<'a> {
    pub store: &'a StoreWords,
    pub sort: Sort,
    pub n: usize,
    pub ghost sound: { IsSound store.now },
    pub ghost exists: { Fragments.exists (store_in store.now) sort n ≡ true },
}

impl<'a> Fragment<'a> {
    ghost use Rattle.std.specs.Prelude.{◌≡◌, ◌<◌};
    ghost use Rattle.rules.specs.Fragments.{fragment_ops, defines_blocks, defines_values};
    ghost use Rattle.rules.specs.Copying.{has_place};
    ghost use Rattle.layout.specs.Columns.{columns};
    ghost use Rattle.layout.specs.Reading.{op_count, block_count, value_count, store_in};
    ghost use Rattle.fragments.specs.Inside.{outer_op, is_itself, is_outermost};

    // The operation that the fragment is, or that is next around it: those inside have larger numbers.
    fn outer_op(&self) -> usize
        ensures { result ≡ outer_op (store_in self.now.store.now) self.now.sort self.now.n }
    {
        match self.sort {
            Sort::Op => self.n,
            Sort::Block => op_around(self.store, self.n),
            Sort::Region => number(self.store, REGION_OP, self.n),
        }
    }

    // Operation m is the fragment.
    #[tactic(auto, unfolding(crate::specs::Inside::is_itself))]
    fn is_itself(&self, m: usize) -> bool
        ensures { result ≡ is_itself self.now.sort self.now.n m }
    {
        match self.sort {
            Sort::Op => m == self.n,
            Sort::Block | Sort::Region => false,
        }
    }

    // Block b is the fragment, or one of the region's own.
    fn is_outermost(&self, b: usize) -> bool
        requires { b < block_count (columns self.now.store.now) }
        ensures { result ≡ is_outermost (store_in self.now.store.now) self.now.sort self.now.n b }
    {
        match self.sort {
            Sort::Op => false,
            Sort::Block => b == self.n,
            Sort::Region => number(self.store, BLOCK_REGION, b) == self.n,
        }
    }

    // Operation m is inside, or is the fragment. The operation around another has the smaller number. (This climbs, and counts no index.)
    pub fn op_inside(&self, m: usize) -> bool
        requires { m < op_count (columns self.now.store.now) }
        ensures { result ≡ has_place (fragment_ops (store_in self.now.store.now) self.now.sort self.now.n) m }
    {
        let outer = self.outer_op();
        let mut at = m;
        while at > outer {
            let Some(b) = number(self.store, OP_PARENT, at).checked_sub(1) else {
                return false;
            };
            if self.is_outermost(b) {
                return true;
            }
            at = op_around(self.store, b);
        }
        self.is_itself(at)
    }

    // Block b is inside, or is the fragment.
    pub fn block_inside(&self, b: usize) -> bool
        requires { b < block_count (columns self.now.store.now) }
        ensures { result ≡ has_place (defines_blocks (store_in self.now.store.now) self.now.sort self.now.n) b }
    {
        self.is_outermost(b) || self.op_inside(op_around(self.store, b))
    }

    // Value v is defined inside: a result of an operation, or an argument of a block.
    pub fn value_inside(&self, v: usize) -> bool
        requires { v < value_count (columns self.now.store.now) }
        ensures { result ≡ has_place (defines_values (store_in self.now.store.now) self.now.sort self.now.n) v }
    {
        // In the store, as it is lent, an owner is twice its number, and one more for a block.
        let owner = number(self.store, VALUE_OWNER, v);
        if owner % 2 == 0 {
            return self.op_inside(owner / 2);
        }
        self.block_inside(owner / 2)
    }
}
