// The lines of a listing, one after the other.
ghost use Rattle.std.specs.Prelude.{◌≡◌, ◌≤◌, length};
ghost use Rattle.rules.specs.Store.{empty_store};
ghost use Rattle.rules.specs.Listings.{max_listing, max_output};
ghost use Rattle.layout.specs.Columns.{buffer_length};
ghost use Rattle.layout.specs.Reading.{store_in};
ghost use Rattle.layout.specs.Soundness.{IsSound};
ghost use Rattle.equivalence.specs.MappingWords.{mapping_length, empty_words};
ghost use Rattle.lines.specs.Header.{second_line};
ghost use Rattle.lines.specs.Writing.{HasRoom};
ghost use Rattle.listing.specs.Progress.{program_of};
ghost use Rattle.listing.specs.Asking.{step_room};
ghost use Rattle.listing.specs.Stepping.{Bare, LineDoes, Ran};
ghost use Rattle.listing.specs.Calls.{PrintsListing, buffers};

use crate::asking::query_does;
use crate::building_lines::{attribute_does, block_does, operand_does, operation_does};
use crate::closing::close;
use crate::emptying::{empty_mapping, empty_store};
use crate::places::{Place, Tally};
use crate::types::{Program, Reading};
use equivalence::mapping::MappingWords;
use layout::columns::StoreWords;
use lines::header::{SECOND_LINE, header_cause};
use lines::letters::{Letter, read_letter};
use lines::parsing::query_line;
use lines::pieces::piece_end;
use lines::printing::put_refusal;
use lines::reading::Fields;
use lines::writing::LineWriter;
use rules::limits::{MAX_LINE, MAX_OPS};
use rules::types::Cause;

// One line: its length, its letter, and then what it does, of which only a query knows the program. The lent buffers are no struct: one of `&mut`s would need clauses of separation
// logic at each caller, which is no plainer.
fn line_does(
    store: &mut StoreWords,
    mapping: &mut MappingWords,
    tally: &mut Tally,
    out: &mut LineWriter,
    reading: Reading,
    line: &[u8],
) -> Result<(), Cause>
    requires sound { IsSound store.old }
    requires mapping_value { mapping.old ≡ empty_words }
    requires step_room_in_bounds { HasRoom step_room out.old }
    ensures line_does { LineDoes reading line.now store.old store.new tally.old tally.new out.old out.new result }
    ensures mapping_after { mapping.new ≡ empty_words }
{
    if line.len() > MAX_LINE {
        return Err(Cause::BadLength);
    }
    let mut fields = Fields::new(line);
    let Some(letter) = read_letter(&mut fields, reading.edition) else {
        return Err(Cause::BadLine);
    };
    match letter {
        Letter::Operation => operation_does(store, &mut fields),
        Letter::Block => block_does(store, &mut fields, reading.edition),
        Letter::Attribute => attribute_does(store, &mut fields, false),
        Letter::Inherent => attribute_does(store, &mut fields, true),
        Letter::Operand => operand_does(store, &mut fields),
        Letter::Query => {
            let query = query_line(&mut fields);
            query_does(store, mapping, tally, out, reading.program, query)
        }
    }
}

// The lines from the second on, which begins at `from`. (No index is counted: a line ends where the next line feed is sought and found.)
fn run(
    reading: Reading,
    listing: &[u8],
    store: &mut StoreWords,
    mapping: &mut MappingWords,
    out: &mut LineWriter,
    from: usize,
)
    requires bare { Bare store.old }
    requires store_value { store_in store.old ≡ empty_store }
    requires mapping_value { mapping.old ≡ empty_words }
    requires second_line_le_from { second_line ≤ from }
    requires from_in_bounds { from ≤ length listing.now }
    requires listing_len_bound { length listing.now ≤ max_listing }
    requires max_output_in_bounds { HasRoom max_output out.old }
    ensures { Ran reading listing.now from store.new mapping.new out.old out.new }
{
    let mut tally = [Place::Outside; MAX_OPS];
    let mut number = 2;
    let mut start = from;
    // From line end to line end, and no `for` over pieces: one that no line feed ends would have to be told apart all the same.
    while start < listing.len() {
        let end = piece_end(listing, start, b'\n');
        if end == listing.len() {
            return put_refusal(out, number, Cause::BadLength);
        }
        let line = &listing[start..end];
        if let Err(cause) = line_does(store, mapping, &mut tally, out, reading, line) {
            return put_refusal(out, number, cause);
        }
        start = end + 1;
        number += 1;
    }
    close(reading.program, &tally, out);
}

// A whole listing, in buffers of the right lengths and with room enough.
pub fn listed(
    program: Program,
    listing: &[u8],
    store: &mut StoreWords,
    mapping: &mut MappingWords,
    lent: &mut [u8],
) -> usize
    requires { max_output ≤ length lent.old }
    ensures { PrintsListing (program_of program) listing.now (buffers store.old mapping.old lent.old) (buffers store.new mapping.new lent.new) result }
{
    let mut out = LineWriter::new(lent);
    let edition = match header_cause(listing) {
        Ok(edition) => edition,
        Err(cause) => {
            put_refusal(&mut out, 1, cause);
            return out.length();
        }
    };
    empty_store(store);
    empty_mapping(mapping);
    let reading = Reading { program, edition };
    run(reading, listing, store, mapping, &mut out, SECOND_LINE);
    out.length()
}
