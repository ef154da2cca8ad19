// Undoing entries of the journal, where that can be done.
ghost use Rattle.std.specs.Prelude.{◌≡◌, ◌<◌, ◌≤◌, drop};
ghost use Rattle.layout.specs.Columns.{columns};
ghost use Rattle.layout.specs.Reading.{store_in, owner_from, attribute_read, tabulate};
ghost use Rattle.layout.specs.Soundness.{IsSound};
ghost use Rattle.layout.specs.Journal.{operand_was, attribute_was, key_was_none, undoable};
ghost use Rattle.layout.specs.MarkedReading.{entry_at, max_entries};
ghost use Rattle.undo_log.specs.Undoing.{Undid, UndidAll};

use crate::entries::{Entry, entry_at};
use crate::removing::remove_key;
use layout::columns::StoreWords;
use layout::kinds::{inherent_from, kind_from};
use layout::owners::owner_exists;
use mutation::attributes::{key_there, set_attribute, slot_for};
use mutation::operands::set_operand;
use rules::types::{Attribute, Owner};

// The owner that a code stands for: twice its number, and one more for a block.
#[tactic(auto, unfolding(layout::specs::Reading::owner_from))]
fn owner_from(code: u32) -> Owner
    ensures { result ≡ owner_from code }
{
    if code % 2 == 0 {
        Owner::Op(code / 2)
    } else {
        Owner::Block(code / 2)
    }
}

// The attribute of a key, by the word of its kind and flag, and by its content.
fn attribute_from(key: u32, word: u32, content: u32) -> Attribute
    ensures { result ≡ attribute_read key word content }
{
    Attribute {
        key,
        kind: kind_from(word),
        content,
        inherent: inherent_from(word),
    }
}

// The owner exists and has the key: so it can be taken out.
fn has_key(store: &StoreWords, owner: Owner, key: u32) -> bool
    requires { IsSound store.now }
    ensures { result ≡ undoable (key_was_none owner key) (store_in store.now) }
{
    owner_exists(store, owner) && key_there(store, owner, slot_for(store, owner, key), key)
}

// Operand i of operation n becomes value v again.
fn undo_operand(store: &mut StoreWords, n: u32, i: u32, v: u32) -> bool
    requires { IsSound store.old }
    ensures { Undid store.old store.new (operand_was n i v) result }
{
    set_operand(store, n, i, v).is_ok()
}

// The owner's attribute of this key becomes this one again.
fn undo_attribute(store: &mut StoreWords, owner: Owner, attribute: Attribute) -> bool
    requires { IsSound store.old }
    ensures { Undid store.old store.new (attribute_was owner attribute) result }
{
    has_key(store, owner, attribute.key) && set_attribute(store, owner, attribute).is_ok()
}

// The owner's attribute of this key is taken out.
fn undo_new_key(store: &mut StoreWords, owner: Owner, key: u32) -> bool
    requires { IsSound store.old }
    ensures { Undid store.old store.new (key_was_none owner key) result }
{
    if !has_key(store, owner, key) {
        return false;
    }
    let slot = slot_for(store, owner, key);
    remove_key(store, owner, slot);
    true
}

// Entry i of the journal.
pub fn undo_entry(store: &mut StoreWords, i: usize) -> bool
    requires sound { IsSound store.old }
    requires i_lt_max_entries { i < max_entries }
    ensures { Undid store.old store.new (entry_at (columns store.old) i) result }
{
    match entry_at(store, i) {
        Entry::OperandWas {
            operation,
            index,
            value,
        } => undo_operand(store, operation, index, value),
        Entry::AttributeWas {
            owner,
            key,
            kind,
            content,
        } => undo_attribute(store, owner_from(owner), attribute_from(key, kind, content)),
        Entry::KeyWasNone { owner, key } => undo_new_key(store, owner_from(owner), key),
    }
}

// The entries from `place` on up to `end`, the newest first, up to the first that can't be undone.
pub fn undo_between(store: &mut StoreWords, place: usize, end: usize) -> bool
    requires sound { IsSound store.old }
    requires place_le_end { place ≤ end }
    requires end_le_max_entries { end ≤ max_entries }
    ensures { UndidAll store.old store.new (drop place (tabulate end (entry_at (columns store.old)))) result }
{
    for i in (place..end).rev() {
        if !undo_entry(store, i) {
            return false;
        }
    }
    true
}
