// The two editions of a listing, and the header by which each is known.
ghost use Rattle.std.specs.Prelude.{◌≡◌, option_map};
ghost use Rattle.rules.specs.Listings.{edition_of};
ghost use Rattle.rules.specs.Converting.{other, header};

use crate::texts::same_bytes;
use rules::types::Edition;

/// The edition that a listing of this one is converted to.
#[tactic(auto, unfolding(rules::specs::Converting::other))]
pub fn other(edition: Edition) -> Edition
    ensures { result ≡ other edition }
{
    match edition {
        Edition::First => Edition::Second,
        Edition::Second => Edition::First,
    }
}

/// The first line of a listing, without its line feed.
#[tactic(auto, unfolding(rules::specs::Converting::header))]
pub fn header(edition: Edition) -> &'static [u8; 9]
    ensures { result.now ≡ header edition }
{
    match edition {
        Edition::First => b"opstore,1",
        Edition::Second => b"opstore,2",
    }
}

/// The edition whose header this line is.
#[tactic(auto, unfolding(rules::specs::Listings::edition_of, rules::specs::Lines::one_of, rules::specs::Bytes::is_text, rules::specs::Converting::header))]
pub fn of_header(line: &[u8]) -> Option<Edition>
    ensures { edition_of line.now ≡ result }
{
    if same_bytes(line, header(Edition::First)) {
        return Some(Edition::First);
    }
    if same_bytes(line, header(Edition::Second)) {
        return Some(Edition::Second);
    }
    None
}
