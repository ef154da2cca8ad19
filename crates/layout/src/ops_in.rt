// The operations of a block, by rising number: what a walk goes through.
ghost use Rattle.std.specs.Prelude.{◌<◌};
ghost use Rattle.layout.specs.Columns.{columns};
ghost use Rattle.layout.specs.Reading.{block_count};
ghost use Rattle.layout.specs.Soundness.{Arranged};

use crate::children::next_op;
use crate::columns::StoreWords;

#[derive(Clone, Copy)]
pub struct OpsIn<'a> {
    store: &'a StoreWords,
    block: usize,
    from: usize,
    pub ghost arranged: { Arranged store.now },
    pub ghost exists: { block < block_count (columns store.now) },
}

impl<'a> OpsIn<'a> {
    ghost use Rattle.std.specs.Prelude.{◌≡◌};
    ghost use Rattle.rules.specs.Store.{ops_of};
    ghost use Rattle.layout.specs.Reading.{store_in};
    ghost use Rattle.layout.specs.OpsLeft.{ops_left};

    pub fn new(store: &'a StoreWords, block: usize) -> OpsIn<'a>
        requires arranged { Arranged store.now }
        requires block_bound { block < block_count (columns store.now) }
        ensures { ops_left result ≡ ops_of (store_in store.now) block }
    {
        OpsIn {
            store,
            block,
            from: 0,
        }
    }
}

impl<'a> Iterator for OpsIn<'a> {
    ghost use Rattle.std.specs.Iterator.{YieldsFirst, item_count};
    ghost use Rattle.layout.specs.OpsLeft.{ops_left};

    type Item = usize;

    ghost next_gives = { YieldsFirst ops_left };

    ghost remaining = { item_count ops_left };

    fn next(&mut self) -> Option<usize> {
        let n = next_op(self.store, self.block, self.from)?;
        self.from = n + 1;
        Some(n)
    }
}
