// The ignore rule, and the attribute slots that it does not ignore.
ghost use Rattle.std.specs.Prelude.{◌≡◌, ◌<◌, ◌≤◌, length};
ghost use Rattle.rules.specs.Shells.{ignored};
ghost use Rattle.layout.specs.Columns.{buffer_length, columns, slot_count};
ghost use Rattle.layout.specs.Reading.{attribute_at};
ghost use Rattle.fragments.specs.Ignoring.{bit_set, kept_from};

use crate::kept_slots::KeptSlots;
use layout::columns::{SLOT_KIND, StoreWords, at};
use layout::kinds::inherent_from;
use rules::types::Ignore;

// The bit of an attribute kind is set.
fn bit_set(bits: u64, kind: u32) -> bool
    requires { kind < 64 }
    ensures { result ≡ bit_set bits kind }
{
    (bits >> kind) % 2 == 1
}

// The attribute at a slot is ignored: it is not inherent, so that its kind alone is in the slot's word, and the bit of its kind is set.
pub fn slot_ignored(store: &StoreWords, ignore: Ignore, slot: usize) -> bool
    requires { slot < slot_count }
    ensures { result ≡ ignored ignore (attribute_at (columns store.now) slot) }
{
    let kind = at(store, SLOT_KIND, slot);
    if inherent_from(kind) {
        return false;
    }
    bit_set(ignore.bits, kind)
}

// How many attributes of a run of slots are not ignored.
pub fn count_kept(store: &StoreWords, ignore: Ignore, first: usize, end: usize) -> u32
    requires end_le_slot_count { end ≤ slot_count }
    requires first_le_end { first ≤ end }
    ensures { result ≡ length (kept_from (columns store.now) ignore first end) }
{
    KeptSlots::new(store, ignore, first, end).count() as u32
}
