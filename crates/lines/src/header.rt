// The first line of a listing, which must be the header of an edition.
ghost use Rattle.lines.specs.Header.{Headed};

use crate::editions::of_header;
use crate::pieces::piece_end;
use rules::limits::{MAX_LINE, MAX_LISTING};
use rules::types::{Cause, Edition};

// Where the second line begins: behind the nine bytes of either header and their line feed.
pub const SECOND_LINE: usize = 10;

// The edition that the first line says, or why that line is refused.
pub fn header_cause(listing: &[u8]) -> Result<Edition, Cause>
    ensures { Headed listing.now result }
{
    if listing.len() > MAX_LISTING {
        return Err(Cause::BadLength);
    }
    if listing.len() == 0 {
        return Err(Cause::BadHeader);
    }
    let end = piece_end(listing, 0, b'\n');
    if end == listing.len() {
        return Err(Cause::BadLength);
    }
    if end > MAX_LINE {
        return Err(Cause::BadLength);
    }
    let Some(edition) = of_header(&listing[..end]) else {
        return Err(Cause::BadHeader);
    };
    Ok(edition)
}
