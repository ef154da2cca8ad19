// The lines that a program prints.
ghost use Rattle.std.specs.Prelude.{◌≡◌, [], ◌∷◌, ◌++◌, ◌≤◌};
ghost use Rattle.rules.specs.Bytes.{comma, line_feed, decimal};
ghost use Rattle.rules.specs.Store.{max_ops};
ghost use Rattle.rules.specs.Listings.{refusal, equal_line, sort_text, unequal_line, hashes_line, rounded_up, per_cent, share_line};
ghost use Rattle.rules.specs.Comparison.{pair_of};
ghost use Rattle.lines.specs.Writing.{HasRoom, Writes};
ghost use Rattle.lines.specs.Room.{number_room, refusal_room, equal_room, sort_room, unequal_room, hashes_room, share_room};

use crate::writing::LineWriter;
use rules::types::{Cause, Sort};

const COMMA: u8 = b',';

const LINE_FEED: u8 = b'\n';

// A number and the comma behind it.
fn put_field(out: &mut LineWriter, n: u32)
    requires { HasRoom number_room out.old }
    ensures { Writes number_room (decimal n ++ (comma ∷ [])) out.old out.new }
{
    out.put_decimal(n);
    out.put_byte(COMMA);
}

// A number and the line feed behind it.
fn put_last(out: &mut LineWriter, n: u32)
    requires { HasRoom number_room out.old }
    ensures { Writes number_room (decimal n ++ (line_feed ∷ [])) out.old out.new }
{
    out.put_decimal(n);
    out.put_byte(LINE_FEED);
}

// The line that says that a line of the listing is refused, and for which cause.
pub fn put_refusal(out: &mut LineWriter, line: u32, cause: Cause)
    requires { HasRoom refusal_room out.old }
    ensures { Writes refusal_room (refusal line cause) out.old out.new }
{
    out.put_text(b"refused,");
    put_field(out, line);
    put_last(out, cause.number());
}

// The line of two equal fragments.
pub fn put_equal(out: &mut LineWriter, paired: u32)
    requires { HasRoom equal_room out.old }
    ensures { Writes equal_room (equal_line paired) out.old out.new }
{
    out.put_text(b"eq,-,-,");
    put_last(out, paired);
}

// A sort of fragment and the comma behind it.
#[tactic(auto, unfolding(rules::specs::Listings::sort_text))]
fn put_sort(out: &mut LineWriter, sort: Sort)
    requires { HasRoom sort_room out.old }
    ensures { Writes sort_room (sort_text sort ++ (comma ∷ [])) out.old out.new }
{
    match sort {
        Sort::Op => out.put_text(b"op,"),
        Sort::Block => out.put_text(b"block,"),
        Sort::Region => out.put_text(b"region,"),
    }
}

// The line of two unequal fragments: the first unequal pair.
pub fn put_unequal(out: &mut LineWriter, sort: Sort, l: u32, r: u32, paired: u32)
    requires { HasRoom unequal_room out.old }
    ensures { Writes unequal_room (unequal_line (pair_of sort l r) paired) out.old out.new }
{
    put_sort(out, sort);
    put_field(out, l);
    put_field(out, r);
    put_last(out, paired);
}

// The line of two hashes.
pub fn put_hashes(out: &mut LineWriter, l: u64, r: u64)
    requires { HasRoom hashes_room out.old }
    ensures { Writes hashes_room (hashes_line l r) out.old out.new }
{
    out.put_hexadecimal(l);
    out.put_byte(COMMA);
    out.put_hexadecimal(r);
    out.put_byte(LINE_FEED);
}

// Whether a quotient is rounded up, 1 or 0, by twice the rest: past the half it is, at the half to the even number.
#[tactic(auto, unfolding(rules::specs::Listings::rounded_up))]
fn rounded_up(quotient: u32, twice: u32, divisor: u32) -> u32
    ensures { result ≡ rounded_up quotient twice divisor }
{
    if twice > divisor {
        return 1;
    }
    if twice == divisor {
        return quotient % 2;
    }
    0
}

// How many per cent `part` is of `whole`, to the nearest; 0 if there is nothing.
#[tactic(auto, using(crate::proofs::Lines::at_most_all, crate::proofs::Lines::up_one), unfolding(rules::specs::Listings::per_cent, rules::specs::Listings::nearest))]
fn per_cent(part: u32, whole: u32) -> u32
    requires part_le_whole { part ≤ whole }
    requires whole_le_max_ops { whole ≤ max_ops }
    ensures { result ≡ per_cent part whole }
{
    if whole == 0 {
        return 0;
    }
    let hundredths = part * 100;
    let cent = hundredths / whole;
    let twice = 2 * (hundredths % whole);
    cent + rounded_up(cent, twice, whole)
}

// The line of the share: how many per cent `equal` operations are of `all`.
pub fn put_share(out: &mut LineWriter, equal: u32, all: u32)
    requires share_room_in_bounds { HasRoom share_room out.old }
    requires equal_le_all { equal ≤ all }
    requires all_le_max_ops { all ≤ max_ops }
    ensures { Writes share_room (share_line (per_cent equal all)) out.old out.new }
{
    let share = per_cent(equal, all);
    out.put_text(b"share,");
    put_last(out, share);
}
