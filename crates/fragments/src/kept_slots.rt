// The attribute slots of a run that are not ignored, by rising number.
ghost use Rattle.std.specs.Prelude.{◌≡◌, ◌<◌, ◌≤◌, length};
ghost use Rattle.layout.specs.Columns.{buffer_length, columns, slot_count};

use crate::ignoring::slot_ignored;
use layout::columns::StoreWords;
use rules::types::Ignore;

#[derive(Clone, Copy)]
pub struct KeptSlots<'a> {
    store: &'a StoreWords,
    ignore: Ignore,
    at: usize,
    end: usize,
    pub ghost end_le_slot_count: { end ≤ slot_count },
}

impl<'a> KeptSlots<'a> {
    ghost use Rattle.fragments.specs.Ignoring.{kept_slots};
    ghost use Rattle.fragments.specs.SlotsLeft.{slots_left};

    pub fn new(store: &'a StoreWords, ignore: Ignore, first: usize, end: usize) -> Self
        requires { end ≤ slot_count }
        ensures { slots_left result ≡ kept_slots (columns store.now) ignore first end }
    {
        KeptSlots {
            store,
            ignore,
            at: first,
            end,
        }
    }
}

impl<'a> Iterator for KeptSlots<'a> {
    ghost use Rattle.std.specs.Iterator.{YieldsFirst, item_count};
    ghost use Rattle.fragments.specs.SlotsLeft.{slots_left};

    type Item = usize;

    ghost next_gives = { YieldsFirst slots_left };

    ghost remaining = { item_count slots_left };

    fn next(&mut self) -> Option<usize> {
        let KeptSlots {
            store,
            ignore,
            at,
            end,
        } = *self;
        let slot = (at..end).find(|slot| !slot_ignored(store, ignore, *slot))?;
        self.at = slot + 1;
        Some(slot)
    }
}
