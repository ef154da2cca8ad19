// Attributes, by their slots. Slots stand by rising key, so that the hash doesn't depend on the order in which keys were set.
ghost use Rattle.std.specs.Prelude.{◌≡◌, ◌<◌, ◌≤◌, ◌++◌, length};
ghost use Rattle.std.specs.List.{flat_map};
ghost use Rattle.rules.specs.Hash.{fnv_from, count, attribute_bytes};
ghost use Rattle.layout.specs.Columns.{buffer_length, columns, slot_count};
ghost use Rattle.layout.specs.Reading.{attribute_at};
ghost use Rattle.fragments.specs.Ignoring.{kept_from};

use crate::state::RunningHash;
use fragments::ignoring::count_kept;
use fragments::kept_slots::KeptSlots;
use layout::columns::{SLOT_CONTENT, SLOT_KEY, SLOT_KIND, StoreWords, at};
use layout::kinds::{inherent_from, kind_from};
use rules::types::Ignore;

// Hash the attribute at a slot: its key, its kind, its content, its flag.
fn feed_attribute(store: &StoreWords, slot: usize, state: &mut RunningHash)
    requires { slot < slot_count }
    ensures { state.new.word ≡ fnv_from state.old.word (attribute_bytes (attribute_at (columns store.now) slot)) }
{
    let key = at(store, SLOT_KEY, slot);
    let kind = at(store, SLOT_KIND, slot);
    let content = at(store, SLOT_CONTENT, slot);
    state.hash_attribute(key, kind_from(kind), content, inherent_from(kind));
}

// Hash the attributes of a run of slots, ignoring those specified by `ignore`: how many there are, then each.
pub fn attributes_hash(
    store: &StoreWords,
    ignore: Ignore,
    first: usize,
    end: usize,
    state: &mut RunningHash,
)
    requires end_le_slot_count { end ≤ slot_count }
    requires first_le_end { first ≤ end }
    ensures { state.new.word ≡ fnv_from state.old.word (count (length (kept_from (columns store.now) ignore first end)) ++ flat_map attribute_bytes (kept_from (columns store.now) ignore first end)) }
{
    state.hash_count(count_kept(store, ignore, first, end));
    for slot in KeptSlots::new(store, ignore, first, end) {
        feed_attribute(store, slot, state);
    }
}
