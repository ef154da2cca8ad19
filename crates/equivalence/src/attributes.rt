// Attributes, by their slots. Slots stand by rising key, so equal lists of attributes are equal slot by slot.
ghost use Rattle.std.specs.Prelude.{◌≡◌, ◌<◌, ◌≤◌, length};
ghost use Rattle.rules.specs.Shells.{same_attribute};
ghost use Rattle.layout.specs.Columns.{buffer_length, columns, slot_count};
ghost use Rattle.layout.specs.Reading.{attribute_at};
ghost use Rattle.equivalence.specs.Slots.{same_kept};

use fragments::kept_slots::KeptSlots;
use layout::columns::{SLOT_CONTENT, SLOT_KEY, SLOT_KIND, StoreWords, at};
use rules::types::Ignore;

// The attributes at two slots are equal. Kinds and flags are compared at once: they share a word.
fn attribute_eq(store: &StoreWords, l: usize, r: usize) -> bool
    requires l_lt_slot_count { l < slot_count }
    requires r_lt_slot_count { r < slot_count }
    ensures { result ≡ same_attribute (attribute_at (columns store.now) l) (attribute_at (columns store.now) r) }
{
    at(store, SLOT_KEY, l) == at(store, SLOT_KEY, r)
        && at(store, SLOT_KIND, l) == at(store, SLOT_KIND, r)
        && at(store, SLOT_CONTENT, l) == at(store, SLOT_CONTENT, r)
}

// Compare the attributes of two runs of slots, without the ignored ones: those from `l` up to `lend`, and those from `r` up to `rend`.
// (No `zip`: which of the two ends first decides the answer.)
pub fn attributes_eq(
    store: &StoreWords,
    ignore: Ignore,
    l: usize,
    lend: usize,
    r: usize,
    rend: usize,
) -> bool
    requires lend_le_slot_count { lend ≤ slot_count }
    requires l_le_lend { l ≤ lend }
    requires rend_le_slot_count { rend ≤ slot_count }
    requires r_le_rend { r ≤ rend }
    ensures { result ≡ same_kept (columns store.now) ignore l lend r rend }
{
    let mut ls = KeptSlots::new(store, ignore, l, lend);
    let mut rs = KeptSlots::new(store, ignore, r, rend);
    loop {
        match (ls.next(), rs.next()) {
            (Some(i), Some(j)) => {
                if !attribute_eq(store, i, j) {
                    return false;
                }
            }
            (None, None) => return true,
            (Some(_), None) | (None, Some(_)) => return false,
        }
    }
}
