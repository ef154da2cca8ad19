// The call that sets an attribute: where a key belongs among its owner's slots, what is tested and what is written.
ghost use Rattle.std.specs.Prelude.{◌≡◌, true, ◌+◌, ◌<◌, ◌≤◌, length, IfOk};
ghost use Rattle.rules.specs.Store.{owner_exists, max_attribute_kind};
ghost use Rattle.rules.specs.Building.{set_attribute, tests, first_failed};
ghost use Rattle.layout.specs.Columns.{buffer_length, columns, slot_count};
ghost use Rattle.layout.specs.Reading.{slots_of, store_in};
ghost use Rattle.layout.specs.Soundness.{IsSound, Arranged};
ghost use Rattle.layout.specs.Owners.{key_count};
ghost use Rattle.rules.specs.Causes.{cause_of};
ghost use Rattle.mutation.specs.Types.{done_of};
ghost use Rattle.mutation.specs.SetWrites.{seek, slot_for, key_there, place_for, replaced, added};
ghost use Rattle.mutation.specs.Doing.{Performs};

use layout::columns::{
    ATTRIBUTES, COUNTS, SLOT_CONTENT, SLOT_KEY, SLOT_KIND, StoreWords, at, insert, number, put,
    words,
};
use layout::kinds::kind_code;
use layout::owners::{count_column, first_slot, key_count, owner_exists, owner_number};
use rules::limits::{MAX_ATTRIBUTE_KIND, MAX_ATTRIBUTES, MAX_OWN_KEYS};
use rules::types::{Attribute, Cause, Owner};

// Where an attribute that is to be set goes: it replaces the one at a slot, or it is inserted at a slot.
#[derive(Clone, Copy, PartialEq, Eq, Debug)]
pub enum AttributePlace {
    Replaces(usize),
    Adds(usize),
}

// Of `count` slots from `first` on, the first whose key is not below this one; the slot behind them if there is none.
fn slot_from(store: &StoreWords, first: usize, count: usize, key: u32) -> usize
    requires count_bound { count ≤ 8 }
    requires first_bound { first + 8 ≤ slot_count }
    ensures { result ≡ seek (columns store.now) key first count }
{
    // No binary search: it asks for keys that rise, and the words of any buffer are searched here.
    let keys = words(store, SLOT_KEY, first, first + count);
    first + keys.iter().take_while(|k| **k < key).count()
}

// The owner's slot where the key belongs.
#[tactic(auto, using(crate::proofs::Owners::reachable), unfolding(crate::specs::SetWrites::slot_for))]
pub fn slot_for(store: &StoreWords, owner: Owner, key: u32) -> usize
    requires sound { IsSound store.now }
    requires owner_value { owner_exists (store_in store.now) owner ≡ true }
    ensures { result ≡ slot_for (columns store.now) owner key }
{
    slot_from(store, first_slot(owner), key_count(store, owner), key)
}

// The owner has the key already: it stands at `slot`, where it belongs.
#[tactic(auto, using(crate::proofs::Owners::reachable), unfolding(crate::specs::SetWrites::key_there))]
pub fn key_there(store: &StoreWords, owner: Owner, slot: usize, key: u32) -> bool
    requires sound { IsSound store.now }
    requires owner_value { owner_exists (store_in store.now) owner ≡ true }
    requires slot_value { slot ≡ slot_for (columns store.now) owner key }
    ensures { result ≡ key_there (columns store.now) owner key }
{
    slot < first_slot(owner) + key_count(store, owner) && at(store, SLOT_KEY, slot) == key
}

// Where the attribute goes, or the cause for which the call is refused, by the tests of document 01 in their order.
pub fn place_for(
    store: &StoreWords,
    owner: Owner,
    attribute: Attribute,
) -> Result<AttributePlace, Cause>
    requires { IsSound store.now }
    ensures refused { cause_of result ≡ first_failed (tests (store_in store.now) (set_attribute owner attribute)) }
    ensures placed { IfOk result (λ place. place ≡ place_for (columns store.now) owner attribute.key) }
{
    if attribute.kind > MAX_ATTRIBUTE_KIND {
        return Err(Cause::UnknownKind);
    }
    if !owner_exists(store, owner) {
        return Err(Cause::NotThere);
    }
    let slot = slot_for(store, owner, attribute.key);
    if key_there(store, owner, slot, attribute.key) {
        return Ok(AttributePlace::Replaces(slot));
    }
    if key_count(store, owner) >= MAX_OWN_KEYS {
        return Err(Cause::OwnerFull);
    }
    if number(store, COUNTS, ATTRIBUTES) >= MAX_ATTRIBUTES {
        return Err(Cause::StoreFull);
    }
    Ok(AttributePlace::Adds(slot))
}

// Replaces the attribute at a slot, where its key stands already.
pub fn put_replaced(store: &mut StoreWords, slot: usize, attribute: Attribute)
    requires slot_lt_slot_count { slot < slot_count }
    requires kind_le_max_attribute_kind { attribute.kind ≤ max_attribute_kind }
    ensures { columns store.new ≡ replaced (columns store.old) slot attribute }
{
    let word = kind_code(attribute.kind, attribute.inherent);
    put(store, SLOT_KIND, slot, word);
    put(store, SLOT_CONTENT, slot, attribute.content);
}

// Inserts an attribute at a slot: the owner's attributes from there on move one slot on, and both counts that it adds to are written.
pub fn put_added(store: &mut StoreWords, owner: Owner, slot: usize, attribute: Attribute)
    requires arranged { Arranged store.old }
    requires owner_value { owner_exists (store_in store.old) owner ≡ true }
    requires slot_bound { slot ≤ slots_of owner + key_count (columns store.old) owner }
    requires owner_bound { key_count (columns store.old) owner < 8 }
    requires kind_le_max_attribute_kind { attribute.kind ≤ max_attribute_kind }
    ensures { columns store.new ≡ added (columns store.old) owner slot attribute }
{
    let count = key_count(store, owner);
    let total = number(store, COUNTS, ATTRIBUTES);
    let end = first_slot(owner) + count;
    let word = kind_code(attribute.kind, attribute.inherent);
    insert(store, SLOT_KEY, slot, end, attribute.key);
    insert(store, SLOT_KIND, slot, end, word);
    insert(store, SLOT_CONTENT, slot, end, attribute.content);
    put(
        store,
        count_column(owner),
        owner_number(owner),
        (count + 1) as u32,
    );
    put(store, COUNTS, ATTRIBUTES, (total + 1) as u32);
}

// The call, on a sound buffer.
pub fn set_attribute(
    store: &mut StoreWords,
    owner: Owner,
    attribute: Attribute,
) -> Result<(), Cause>
    requires { IsSound store.old }
    ensures { Performs store.old store.new (set_attribute owner attribute) (done_of result) }
{
    match place_for(store, owner, attribute)? {
        AttributePlace::Replaces(slot) => put_replaced(store, slot, attribute),
        AttributePlace::Adds(slot) => put_added(store, owner, slot, attribute),
    }
    Ok(())
}
