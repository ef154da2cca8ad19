// Attributes, by their slots. Slots stand by rising key, so that a key doesn't depend on the order in which attributes were set.
ghost use Rattle.std.specs.Prelude.{◌++◌, ◌≡◌, ◌<◌, ◌≤◌, length};
ghost use Rattle.std.specs.List.{flat_map};
ghost use Rattle.rules.specs.Hash.{count, attribute_bytes};
ghost use Rattle.layout.specs.Columns.{buffer_length, columns, slot_count};
ghost use Rattle.layout.specs.Reading.{attribute_at};
ghost use Rattle.fragments.specs.Ignoring.{kept_from};
ghost use Rattle.keys.specs.Put.{Put};

use crate::numbers::{put_count, put_flag, put_leaf};
use fragments::ignoring::count_kept;
use fragments::kept_slots::KeptSlots;
use layout::columns::{SLOT_CONTENT, SLOT_KEY, SLOT_KIND, StoreWords, at};
use layout::kinds::{inherent_from, kind_from};
use rules::types::Ignore;

// The attribute at a slot: its key, its kind, its content, its flag. Where its 13 bytes don't fit nothing is looked up.
fn put_slot(store: &StoreWords, key: &mut [u8], slot: usize) -> usize
    requires { slot < slot_count }
    ensures { Put (attribute_bytes (attribute_at (columns store.now) slot)) key.old key.new result }
{
    if key.len() < 13 {
        return 13;
    }
    let kind = at(store, SLOT_KIND, slot);
    let second = put_leaf(key, at(store, SLOT_KEY, slot));
    let rest = second.min(key.len());
    let third = second.saturating_add(put_leaf(&mut key[rest..], kind_from(kind)));
    let rest = third.min(key.len());
    let fourth = third.saturating_add(put_leaf(&mut key[rest..], at(store, SLOT_CONTENT, slot)));
    let rest = fourth.min(key.len());
    fourth.saturating_add(put_flag(&mut key[rest..], inherent_from(kind)))
}

// Each attribute of a run of slots that is not ignored.
fn put_kept(store: &StoreWords, key: &mut [u8], ignore: Ignore, first: usize, end: usize) -> usize
    requires { end ≤ slot_count }
    ensures { Put (flat_map attribute_bytes (kept_from (columns store.now) ignore first end)) key.old key.new result }
{
    let mut at: usize = 0;
    for slot in KeptSlots::new(store, ignore, first, end) {
        let rest = at.min(key.len());
        at = at.saturating_add(put_slot(store, &mut key[rest..], slot));
    }
    at
}

// The attributes of a run of slots, ignoring those specified by `ignore`: how many there are, then each.
pub fn put_attributes(
    store: &StoreWords,
    key: &mut [u8],
    ignore: Ignore,
    first: usize,
    end: usize,
) -> usize
    requires end_le_slot_count { end ≤ slot_count }
    requires first_le_end { first ≤ end }
    ensures { Put (count (length (kept_from (columns store.now) ignore first end)) ++ flat_map attribute_bytes (kept_from (columns store.now) ignore first end)) key.old key.new result }
{
    let at = put_count(key, count_kept(store, ignore, first, end) as usize);
    let rest = at.min(key.len());
    at.saturating_add(put_kept(store, &mut key[rest..], ignore, first, end))
}
