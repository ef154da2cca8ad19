// Taking a key out of its owner's slots.
ghost use Rattle.std.specs.Prelude.{◌≡◌, true, ◌+◌, ◌<◌, ◌≤◌};
ghost use Rattle.rules.specs.Store.{owner_exists};
ghost use Rattle.layout.specs.Columns.{columns};
ghost use Rattle.layout.specs.Reading.{slots_of, store_in};
ghost use Rattle.layout.specs.Soundness.{IsSound};
ghost use Rattle.layout.specs.Owners.{key_count};
ghost use Rattle.undo_log.specs.KeyRemoval.{without_slot};

use layout::columns::{
    ATTRIBUTES, COUNTS, SLOT_CONTENT, SLOT_KEY, SLOT_KIND, StoreWords, copy, number, put,
};
use layout::owners::{count_column, first_slot, key_count, owner_number};
use rules::types::Owner;

// Takes the attribute at one of its owner's slots out: those behind it move one slot down, and both counts that it was in are written.
#[tactic(auto, using(crate::proofs::KeysCounted::owner_kept), unfolding(crate::specs::KeyRemoval::without_slot, crate::specs::KeyRemoval::removed, layout::specs::Reading::attribute_count))]
pub fn remove_key(store: &mut StoreWords, owner: Owner, slot: usize)
    requires sound { IsSound store.old }
    requires owner_value { owner_exists (store_in store.old) owner ≡ true }
    requires owner_bound { slots_of owner ≤ slot }
    requires slot_bound { slot < slots_of owner + key_count (columns store.old) owner }
    ensures { columns store.new ≡ without_slot (columns store.old) owner slot }
{
    let count = key_count(store, owner);
    let total = number(store, COUNTS, ATTRIBUTES);
    let end = first_slot(owner) + count;
    copy(store, SLOT_KEY, slot, SLOT_KEY, slot + 1, end);
    copy(store, SLOT_KIND, slot, SLOT_KIND, slot + 1, end);
    copy(store, SLOT_CONTENT, slot, SLOT_CONTENT, slot + 1, end);
    put(
        store,
        count_column(owner),
        owner_number(owner),
        (count - 1) as u32,
    );
    put(store, COUNTS, ATTRIBUTES, (total - 1) as u32);
}
