// A mapping that the caller lends: its words, the test whether it is allowed, and entries made in it.
ghost use Rattle.std.specs.Prelude.{◌≡◌, ◌+◌, ◌<◌, ◌≤◌, length};
ghost use Rattle.std.specs.List.{list_all};
ghost use Rattle.rules.specs.Mapping.{entries_allowed, allowed};
ghost use Rattle.layout.specs.Reading.{store_in, consecutive};
ghost use Rattle.layout.specs.Soundness.{Arranged};
ghost use Rattle.equivalence.specs.MappingWords.{mapping_length, mapping_of, image_allowed, unmapped, op_mapped, block_mapped, values_mapped};

use layout::columns::{BLOCKS, COUNTS, OPS, StoreWords, VALUES, at};

// The entry of a number that has no image.
pub const NO_IMAGE: u32 = 4294967295;

pub const MAPPING_LENGTH: usize = 2816;

// The mapping.
pub type MappingWords = [u32; MAPPING_LENGTH];

// Where the entries of blocks and of operations begin, behind those of values.
pub const BLOCK_ENTRIES: usize = 2048;

pub const OP_ENTRIES: usize = 2304;

// An entry of a number that exists is allowed if it has no image, or one that exists in a store with `count` of what it is an entry of. Of
// an entry that has none, one more wraps to 0.
#[tactic(auto, using(crate::proofs::MappingEntries::image_test))]
fn image_allowed(count: u32, image: u32) -> bool
    ensures { result ≡ image_allowed count image }
{
    image.wrapping_add(1) <= count
}

// Each of these entries of numbers that exist is allowed. All are looked at, with no early exit, so that it is done in lanes.
fn images_allowed(count: u32, entries: &[u32]) -> bool
    ensures { result ≡ list_all (image_allowed count) entries.now }
{
    entries
        .iter()
        .fold(true, |good, image| good & image_allowed(count, *image))
}

// None of these entries has an image: all that is allowed of numbers that do not exist. There is no early exit either.
fn none_mapped(entries: &[u32]) -> bool
    ensures { result ≡ list_all unmapped entries.now }
{
    entries
        .iter()
        .fold(true, |good, image| good & (*image == NO_IMAGE))
}

// Each entry is allowed.
fn entries_allowed(count: u32, entries: &[u32]) -> bool
    ensures { result ≡ entries_allowed count 0 entries.now }
{
    let n = entries.len().min(count as usize);
    images_allowed(count, &entries[..n]) && none_mapped(&entries[n..])
}

// The mapping is of the right length, and each left number and image in it exists in the store.
#[tactic(auto, using(crate::proofs::MappingEntries::wrong_length, crate::proofs::MappingEntries::allowed_is))]
pub fn is_allowed(store: &StoreWords, mapping: &[u32]) -> bool
    requires { Arranged store.now }
    ensures { result ≡ allowed (store_in store.now) (mapping_of mapping.now) }
{
    if mapping.len() != MAPPING_LENGTH {
        return false;
    }
    let (values, others) = mapping.split_at(BLOCK_ENTRIES);
    let (blocks, ops) = others.split_at(OP_ENTRIES - BLOCK_ENTRIES);
    entries_allowed(at(store, COUNTS, VALUES), values)
        && entries_allowed(at(store, COUNTS, BLOCKS), blocks)
        && entries_allowed(at(store, COUNTS, OPS), ops)
}

// Maps operation l to r.
#[tactic(auto, using(crate::proofs::Entering::op_entered))]
pub fn map_op(mapping: &mut MappingWords, l: usize, r: u32)
    requires { l < 512 }
    ensures { mapping_of mapping.new ≡ op_mapped (mapping_of mapping.old) l r }
{
    mapping[OP_ENTRIES + l] = r;
}

// Maps block l to r.
#[tactic(auto, using(crate::proofs::Entering::block_entered))]
pub fn map_block(mapping: &mut MappingWords, l: usize, r: u32)
    requires { l < 256 }
    ensures { mapping_of mapping.new ≡ block_mapped (mapping_of mapping.old) l r }
{
    mapping[BLOCK_ENTRIES + l] = r;
}

// Maps `count` values from l on to those from r on.
pub fn map_values(mapping: &mut MappingWords, l: usize, r: u32, count: usize)
    requires count_bound { l + count ≤ 2048 }
    requires right_bound { r + count ≤ 2048 }
    ensures { mapping_of mapping.new ≡ values_mapped (mapping_of mapping.old) (consecutive l count) (consecutive r count) }
{
    for i in 0..count {
        mapping[l + i] = r + i as u32;
    }
}
