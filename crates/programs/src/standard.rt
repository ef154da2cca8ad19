// A program, from a reader to a writer, and from standard input to standard output.
ghost use Rattle.std.specs.Prelude.{IfErr, IfSome, OnOk};
ghost use Rattle.std.specs.Io.KnownBytes.{Appends};
ghost use Rattle.programs.specs.Commands.{output_of};
ghost use Rattle.programs.specs.Failing.{KeepsUnread};

use crate::answers::printed;
use crate::commands::Command;
use crate::failing::Failure;
use crate::input::read_to_end;
use listing::calls::ROOM;
use std::io;
use std::io::{Read, Write};

// One byte more than the longest listing has, so that a longer one is seen to be too long.
const BYTES: usize = 65537;

// Writes what the program prints for a listing.
fn answer<W: Write>(command: Command, listing: &[u8], to: &mut W) -> io::Result<()>
    ensures { OnOk result (Appends (W.contents to.old) (W.contents to.new) (output_of command listing.now)) }
{
    let mut out = [0; ROOM];
    let n = printed(command, listing, &mut out);
    to.write_all(&out[..n])
}

// Runs a program on all that a reader has, of which it reads no more than it needs. Nothing is written where a read failed.
pub fn run_between<R: Read, W: Write>(
    command: Command,
    from: &mut R,
    to: &mut W,
) -> Result<(), Failure>
    ensures printed { OnOk result (IfSome (R.remaining from.old)
        (λ bytes. Appends (W.contents to.old) (W.contents to.new) (output_of command bytes))) }
    ensures unread { IfErr result (λ failure. KeepsUnread failure (W.contents to.old) (W.contents to.new)) }
{
    let mut bytes = [0; BYTES];
    match read_to_end(from, &mut bytes) {
        Ok(n) => answer(command, &bytes[..n], to).map_err(Failure::Output),
        Err(error) => Err(Failure::Input(error)),
    }
}

// Runs a program on standard input and standard output. What failed goes to standard error, and the status is 0 all the same.
pub fn run(rt: &(impl Input + Print + Eprint), command: Command) {
    if let Err(failure) = run_between(command, &mut rt.reader(), &mut io::writer(rt)) {
        let _ = eprintln!(rt; "{failure}");
    }
}
