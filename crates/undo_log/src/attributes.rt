// The call that sets an attribute: what it was, or that its key is new, is remembered while a mark is set.
ghost use Rattle.std.specs.Prelude.{◌≡◌, ◌<◌, length, None};
ghost use Rattle.rules.specs.Building.{tests, first_failed, set_attribute, accepted};
ghost use Rattle.rules.specs.Marks.{build};
ghost use Rattle.layout.specs.Columns.{buffer_length, columns, slot_count};
ghost use Rattle.layout.specs.Reading.{store_in, owner_code};
ghost use Rattle.layout.specs.Owners.{owner_number};
ghost use Rattle.mutation.specs.Types.{done_of};
ghost use Rattle.mutation.specs.SetWrites.{place_for};
ghost use Rattle.mutation.specs.declared.attributes.AttributePlace.TheVariants as Places;
ghost use Rattle.layout.specs.MarkedReading.{mark_count, IsLent};
ghost use Rattle.undo_log.specs.MarkedCalls.{PerformsMarked};
ghost use Rattle.undo_log.specs.EntryWrites.{attribute_entry, key_entry};

use crate::entries::Entry;
use crate::remembering::{is_full, remember};
use layout::columns::{COUNTS, MARKS, SLOT_CONTENT, SLOT_KEY, SLOT_KIND, StoreWords, at};
use mutation::attributes::{AttributePlace, place_for, put_added, put_replaced};
use rules::types::{Attribute, Cause, Owner};

// The owner as a word: twice its number, and one more for a block.
#[tactic(auto, unfolding(layout::specs::Owners::owner_number, layout::specs::Reading::owner_code))]
fn owner_code(owner: Owner) -> u32
    requires { owner_number owner < 512 }
    ensures { result ≡ owner_code owner }
{
    match owner {
        Owner::Op(n) => 2 * n,
        Owner::Block(b) => 2 * b + 1,
    }
}

// The owner's attribute at a slot as it is.
#[tactic(auto, unfolding(crate::specs::EntryWrites::attribute_entry))]
fn attribute_was(store: &StoreWords, owner: Owner, slot: usize) -> Entry
    requires owner_bound { owner_number owner < 512 }
    requires slot_lt_slot_count { slot < slot_count }
    ensures { result ≡ attribute_entry (columns store.now) owner slot }
{
    let owner = owner_code(owner);
    let key = at(store, SLOT_KEY, slot);
    let kind = at(store, SLOT_KIND, slot);
    let content = at(store, SLOT_CONTENT, slot);
    Entry::AttributeWas {
        owner,
        key,
        kind,
        content,
    }
}

// That the owner does not have this key.
#[tactic(auto, unfolding(crate::specs::EntryWrites::key_entry))]
fn key_was_none(owner: Owner, key: u32) -> Entry
    requires { owner_number owner < 512 }
    ensures { result ≡ key_entry owner key }
{
    let owner = owner_code(owner);
    Entry::KeyWasNone { owner, key }
}

// Replaces the attribute at a slot, and remembers what it was, if that can be.
#[tactic(auto, using(crate::proofs::Lent::lent_facts))]
fn replace_attribute(
    store: &mut StoreWords,
    owner: Owner,
    slot: usize,
    attribute: Attribute,
) -> Result<(), Cause>
    requires lent { IsLent store.old }
    requires nonzero { 0 < mark_count (columns store.old) }
    requires clear { first_failed (tests (store_in store.old) (set_attribute owner attribute)) ≡ None }
    requires slot_value { Places.Replaces slot ≡ place_for (columns store.old) owner attribute.key }
    ensures { PerformsMarked store.old store.new (build (set_attribute owner attribute)) (done_of result) }
{
    if is_full(store) {
        return Err(Cause::JournalFull);
    }
    let was = attribute_was(store, owner, slot);
    put_replaced(store, slot, attribute);
    remember(store, was);
    Ok(())
}

// Inserts an attribute at a slot, and remembers that its key is new.
#[tactic(auto, using(crate::proofs::Lent::lent_facts))]
fn add_attribute(store: &mut StoreWords, owner: Owner, slot: usize, attribute: Attribute)
    requires lent { IsLent store.old }
    requires nonzero { 0 < mark_count (columns store.old) }
    requires clear { first_failed (tests (store_in store.old) (set_attribute owner attribute)) ≡ None }
    requires slot_value { Places.Adds slot ≡ place_for (columns store.old) owner attribute.key }
    ensures { PerformsMarked store.old store.new (build (set_attribute owner attribute)) accepted }
{
    let was = key_was_none(owner, attribute.key);
    put_added(store, owner, slot, attribute);
    remember(store, was);
}

// The call, on a lent buffer.
#[tactic(auto, using(crate::proofs::Lent::lent_facts), unfolding(layout::specs::MarkedReading::mark_count))]
pub fn set_attribute(
    store: &mut StoreWords,
    owner: Owner,
    attribute: Attribute,
) -> Result<(), Cause>
    requires { IsLent store.old }
    ensures { PerformsMarked store.old store.new (build (set_attribute owner attribute)) (done_of result) }
{
    if at(store, COUNTS, MARKS) == 0 {
        return mutation::attributes::set_attribute(store, owner, attribute);
    }
    match place_for(store, owner, attribute)? {
        AttributePlace::Replaces(slot) => replace_attribute(store, owner, slot, attribute),
        AttributePlace::Adds(slot) => {
            add_attribute(store, owner, slot, attribute);
            Ok(())
        }
    }
}
