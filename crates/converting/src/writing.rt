// A listing of which no line is refused is written in the other edition.
ghost use Rattle.std.specs.Prelude.{◌≡◌, [], ◌∷◌, ◌++◌, length};
ghost use Rattle.rules.specs.Bytes.{line_feed};
ghost use Rattle.rules.specs.Listings.{max_listing};
ghost use Rattle.rules.specs.Converting.{header, converted};
ghost use Rattle.lines.specs.Header.{second_line};
ghost use Rattle.lines.specs.Writing.{HasRoom, Writes};
ghost use Rattle.converting.specs.Writing.{converted_lines, Convertible};

use crate::parts::put_converted;
use lines::editions::{header, other};
use lines::header::SECOND_LINE;
use lines::pieces::piece_end;
use lines::writing::LineWriter;
use rules::types::Edition;

// The first line.
fn put_header(out: &mut LineWriter, edition: Edition)
    requires { HasRoom second_line out.old }
    ensures { Writes second_line (header edition ++ (line_feed ∷ [])) out.old out.new }
{
    out.put_text(header(edition));
    out.put_byte(b'\n');
}

// The lines behind it.
fn put_lines(out: &mut LineWriter, listing: &[u8], edition: Edition)
    requires convertible { Convertible edition listing.now }
    requires room { HasRoom (length (converted_lines edition listing.now)) out.old }
    ensures { Writes (length (converted_lines edition listing.now)) (converted_lines edition listing.now) out.old out.new }
{
    let mut start = SECOND_LINE;
    // From line end to line end, as where they are tested.
    while start < listing.len() {
        let end = piece_end(listing, start, b'\n');
        put_converted(out, &listing[start..end], edition);
        start = end + 1;
    }
}

// The whole listing, which is of this edition.
pub fn put_listing(out: &mut LineWriter, listing: &[u8], edition: Edition)
    requires convertible { Convertible edition listing.now }
    requires room { HasRoom max_listing out.old }
    ensures { Writes max_listing (converted listing.now) out.old out.new }
{
    put_header(out, other(edition));
    put_lines(out, listing, edition);
}
