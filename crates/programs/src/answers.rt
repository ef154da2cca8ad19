// What a program prints for a listing, in buffers of its own.
ghost use Rattle.std.specs.Prelude.{◌≤◌, length};
ghost use Rattle.rules.specs.Listings.{twins, sums, max_output};
ghost use Rattle.rules.specs.Converting.{convert};
ghost use Rattle.lines.specs.Writing.{WritesAt};
ghost use Rattle.programs.specs.Commands.{output_of};

use crate::commands::Command;
use converting::calls::convert;
use listing::calls::{MAPPING, STORE, sums, twins};

fn twins_printed(listing: &[u8], out: &mut [u8]) -> usize
    requires { max_output ≤ length out.old }
    ensures { WritesAt max_output out.old out.new 0 (twins listing.now) result }
{
    let mut store = [0; STORE];
    let mut mapping = [0; MAPPING];
    twins(listing, &mut store, &mut mapping, out).unwrap_or(0)
}

fn sums_printed(listing: &[u8], out: &mut [u8]) -> usize
    requires { max_output ≤ length out.old }
    ensures { WritesAt max_output out.old out.new 0 (sums listing.now) result }
{
    let mut store = [0; STORE];
    sums(listing, &mut store, out).unwrap_or(0)
}

fn convert_printed(listing: &[u8], out: &mut [u8]) -> usize
    requires { max_output ≤ length out.old }
    ensures { WritesAt max_output out.old out.new 0 (convert listing.now) result }
{
    convert(listing, out).unwrap_or(0)
}

// How many bytes of `out` are what the program prints.
#[tactic(auto, unfolding(crate::specs::Commands::output_of))]
pub fn printed(command: Command, listing: &[u8], out: &mut [u8]) -> usize
    requires { max_output ≤ length out.old }
    ensures { WritesAt max_output out.old out.new 0 (output_of command listing.now) result }
{
    match command {
        Command::Twins => twins_printed(listing, out),
        Command::Sums => sums_printed(listing, out),
        Command::Convert => convert_printed(listing, out),
    }
}
