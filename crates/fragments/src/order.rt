// The order of a walk through a list of blocks.
ghost use Rattle.std.specs.Prelude.{◌≡◌};
ghost use Rattle.std.specs.Iterator.{YieldsFirst, item_count};
ghost use Rattle.layout.specs.Reading.{store_in};
ghost use Rattle.layout.specs.Columns.{columns};
ghost use Rattle.layout.specs.Soundness.{IsSound};
ghost use Rattle.layout.specs.Children.{first_from};
ghost use Rattle.fragments.specs.Order.{block_list, BlocksExist, blocks_exist_prop};

use crate::types::Blocks;
use layout::children::{next_block, one_from};
use layout::columns::StoreWords;

// The first of a list of blocks whose number is not below `from`.
pub fn next_in(store: &StoreWords, blocks: Blocks, from: usize) -> Option<usize>
    requires sound { IsSound store.now }
    requires blocks_exist { BlocksExist (columns store.now) blocks }
    ensures { result ≡ first_from from (block_list (store_in store.now) blocks) }
{
    match blocks {
        Blocks::InRegion(r) => next_block(store, r, from),
        Blocks::Single(b) => one_from(b, from),
    }
}

// The blocks of a list, one after the other, by rising number: those from `from` on are left.
#[derive(Clone, Copy)]
pub struct BlocksIn<'a> {
    store: &'a StoreWords,
    blocks: Blocks,
    from: usize,
    ghost sound: { IsSound store.now },
    ghost blocks_exist: { BlocksExist (columns store.now) blocks } by { blocks_exist_prop (columns store.now) blocks },
}

impl<'a> BlocksIn<'a> {
    ghost use Rattle.fragments.specs.BlocksLeft.{blocks_left};

    pub fn new(store: &'a StoreWords, blocks: Blocks) -> Self
        requires sound { IsSound store.now }
        requires blocks_exist { BlocksExist (columns store.now) blocks }
        ensures { blocks_left result ≡ block_list (store_in store.now) blocks }
    {
        BlocksIn {
            store,
            blocks,
            from: 0,
        }
    }
}

impl<'a> Iterator for BlocksIn<'a> {
    ghost use Rattle.fragments.specs.BlocksLeft.{blocks_left};

    type Item = usize;

    ghost next_gives = { YieldsFirst blocks_left };

    ghost remaining = { item_count blocks_left };

    fn next(&mut self) -> Option<usize> {
        let b = next_in(self.store, self.blocks, self.from)?;
        self.from = b + 1;
        Some(b)
    }
}
