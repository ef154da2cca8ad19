// The offered function: a listing in, the bytes that the converter prints for it out. It refuses less room than is always enough.
ghost use Rattle.std.specs.Prelude.{◌≤◌, length};
ghost use Rattle.rules.specs.Listings.{max_listing};
ghost use Rattle.rules.specs.Converting.{convert};
ghost use Rattle.lines.specs.Writing.{HasRoom, Writes};
ghost use Rattle.lines.specs.Writing.{WritesAt};
ghost use Rattle.converting.specs.Calls.{ConverterAnswers};

use crate::testing::tested;
use crate::types::NoRoom;
use crate::writing::put_listing;
use lines::printing::put_refusal;
use lines::writing::LineWriter;
use rules::limits::MAX_LISTING;

// How many bytes are enough for all that may be printed: those of the longest listing.
pub const ROOM: usize = MAX_LISTING;

// The converted listing, or the line that is refused.
fn put_answer(out: &mut LineWriter, listing: &[u8])
    requires { HasRoom max_listing out.old }
    ensures { Writes max_listing (convert listing.now) out.old out.new }
{
    match tested(listing) {
        Ok(edition) => put_listing(out, listing, edition),
        Err(refusal) => put_refusal(out, refusal.line, refusal.cause),
    }
}

// Into bytes that have room enough.
fn printed(listing: &[u8], lent: &mut [u8]) -> usize
    requires { max_listing ≤ length lent.old }
    ensures { WritesAt max_listing lent.old lent.new 0 (convert listing.now) result }
{
    let mut out = LineWriter::new(lent);
    put_answer(&mut out, listing);
    out.length()
}

#[tactic(auto, unfolding(crate::specs::Calls::ConverterAnswers))]
pub fn convert(listing: &[u8], out: &mut [u8]) -> Result<usize, NoRoom>
    ensures { ConverterAnswers listing.now out.old out.new result }
{
    if out.len() < ROOM {
        return Err(NoRoom);
    }
    Ok(printed(listing, out))
}
