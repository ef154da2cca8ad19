// Queries, which each program answers in its own way.
ghost use Rattle.std.specs.Prelude.{◌≡◌, option_map};
ghost use Rattle.rules.specs.Listings.{line_does};
ghost use Rattle.layout.specs.Soundness.{IsSound};
ghost use Rattle.equivalence.specs.MappingWords.{empty_words};
ghost use Rattle.lines.specs.Parsing.{query_of};
ghost use Rattle.lines.specs.Writing.{HasRoom};
ghost use Rattle.listing.specs.Progress.{program_of, progress_of};
ghost use Rattle.listing.specs.Asking.{Stepped, step_room};

use crate::comparing::twins_does;
use crate::places::Tally;
use crate::summing::sums_does;
use crate::types::Program;
use equivalence::mapping::MappingWords;
use layout::columns::StoreWords;
use lines::parsing::Query;
use lines::writing::LineWriter;
use rules::types::Cause;

// A line `q`, as it was read behind its letter.
pub fn query_does(
    store: &StoreWords,
    mapping: &mut MappingWords,
    tally: &mut Tally,
    out: &mut LineWriter,
    program: Program,
    line: Option<Query>,
) -> Result<(), Cause>
    requires sound { IsSound store.now }
    requires mapping_value { mapping.old ≡ empty_words }
    requires step_room_in_bounds { HasRoom step_room out.old }
    ensures stepped { Stepped (line_does (program_of program) (progress_of store.now tally.old) (option_map query_of line)) store.now tally.new out.old out.new result }
    ensures mapping_after { mapping.new ≡ empty_words }
{
    let Some(query) = line else {
        return Err(Cause::BadLine);
    };
    match program {
        Program::Twins => twins_does(store, mapping, tally, out, query),
        Program::Sums => sums_does(store, out, query),
    }
}
