// A program's input: a reader is read to its end, into a buffer.
ghost use Rattle.std.specs.Prelude.{◌≡◌, ◌<◌, ◌≤◌, IfOk, length, take, slice_range};
ghost use Rattle.std.specs.Io.KnownBytes.{Consumes, IsAtEnd};

use std::io;
use std::io::Read;

// One read, into the buffer behind its first `at` bytes: how many bytes stand in it then. A read that is interrupted has failed.
fn read_more<R: Read>(from: &mut R, to: &mut [u8], at: usize) -> io::Result<usize>
    requires { at ≤ length to.old }
    ensures fits { IfOk result (λ n. n ≤ length to.new) }
    ensures behind { IfOk result (λ n. at ≤ n) }
    ensures kept { take at to.new ≡ take at to.old }
    ensures taken { IfOk result (λ n. Consumes (R.remaining from.old) (R.remaining from.new) (slice_range to.new at n)) }
    ensures ended { IfOk result (λ n. n ≤ at → at < length to.new → IsAtEnd (R.remaining from.new)) }
{
    let more = from.read(&mut to[at..])?;
    Ok(at + more)
}

// Reads until the input ends or the buffer is full: how many bytes stand in it then. A read that brings no byte is the last, and so this
// ends. (No index is counted: each read tells how far it came.)
pub fn read_to_end<R: Read>(from: &mut R, to: &mut [u8]) -> io::Result<usize>
    ensures fits { IfOk result (λ n. n ≤ length to.new) }
    ensures taken { IfOk result (λ n. Consumes (R.remaining from.old) (R.remaining from.new) (take n to.new)) }
    ensures whole { IfOk result (λ n. n < length to.new → IsAtEnd (R.remaining from.new)) }
{
    let mut at = 0;
    // How far a read goes is known from the read alone, so this counts nothing that a `for` could.
    while at < to.len() {
        let next = read_more(from, to, at)?;
        if next <= at {
            return Ok(at);
        }
        at = next;
    }
    Ok(at)
}
