// What is printed behind the last line.
ghost use Rattle.lines.specs.Writing.{HasRoom, Writes};
ghost use Rattle.lines.specs.Room.{share_room};
ghost use Rattle.listing.specs.Stepping.{closes};

use crate::counting::counts;
use crate::places::Tally;
use crate::types::Program;
use lines::printing::put_share;
use lines::writing::LineWriter;

// `twins` prints the share, `sums` nothing.
pub fn close(program: Program, tally: &Tally, out: &mut LineWriter)
    requires { HasRoom share_room out.old }
    ensures { Writes share_room (closes program tally.now) out.old out.new }
{
    match program {
        Program::Twins => {
            let counted = counts(tally);
            put_share(out, counted.equal, counted.all);
        }
        Program::Sums => {}
    }
}
