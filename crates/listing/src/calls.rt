// The two offered functions: a listing in, the bytes that the program prints for it out. Each refuses lent buffers that are not of their
// lengths, and less room than is always enough.
ghost use Rattle.rules.specs.Listings.{twins_program, sums_program};
ghost use Rattle.equivalence.specs.MappingWords.{empty_words};
ghost use Rattle.listing.specs.Calls.{listing_answer_of, ListingAnswers, buffers};

use crate::running::listed;
use crate::types::{Program, Unprinted};
use equivalence::mapping::NO_IMAGE;
use rules::types::Cause;

// How many words a store has, how many words a mapping has, and how many bytes are enough for all that may be printed: five for each byte of
// the longest listing.
pub const STORE: usize = layout::columns::STORE_LENGTH;

pub const MAPPING: usize = equivalence::mapping::MAPPING_LENGTH;

pub const ROOM: usize = 327680;

pub fn twins(
    listing: &[u8],
    store: &mut [u32],
    mapping: &mut [u32],
    out: &mut [u8],
) -> Result<usize, Unprinted>
    ensures { ListingAnswers twins_program listing.now (buffers store.old mapping.old out.old) (buffers store.new mapping.new out.new) (listing_answer_of result) }
{
    let Some(words) = store.as_mut_array() else {
        return Err(Unprinted::Refused(Cause::NotSound));
    };
    let Some(entries) = mapping.as_mut_array() else {
        return Err(Unprinted::Refused(Cause::BadMapping));
    };
    if out.len() < ROOM {
        return Err(Unprinted::NoRoom);
    }
    Ok(listed(Program::Twins, listing, words, entries, out))
}

// It compares nothing, and so is lent no mapping.
pub fn sums(listing: &[u8], store: &mut [u32], out: &mut [u8]) -> Result<usize, Unprinted>
    ensures { ListingAnswers sums_program listing.now (buffers store.old empty_words out.old) (buffers store.new empty_words out.new) (listing_answer_of result) }
{
    let Some(words) = store.as_mut_array() else {
        return Err(Unprinted::Refused(Cause::NotSound));
    };
    if out.len() < ROOM {
        return Err(Unprinted::NoRoom);
    }
    let mut mapping = [NO_IMAGE; MAPPING];
    Ok(listed(Program::Sums, listing, words, &mut mapping, out))
}
