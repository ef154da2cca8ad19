// How a line is converted: which of its bytes are copied, and what is written between them. Nothing but the label of a `b` line changes.
ghost use Rattle.std.specs.Prelude.{◌≡◌, ℕ, suc, ◌+◌, ◌≤◌, length};
ghost use Rattle.rules.specs.Listings.{max_line};
ghost use Rattle.rules.specs.Converting.{converted_line};
ghost use Rattle.lines.specs.Writing.{HasRoom, Writes};
ghost use Rattle.converting.specs.Parts.{FieldsEnd, label_of, Makes};

use lines::letters::is_block_line;
use lines::pieces::piece_end;
use lines::writing::LineWriter;
use rules::types::Edition;

// The bytes before `front` are copied, then comes a label 0 where there is to be one, and then the bytes from `back` on.
#[derive(Clone, Copy)]
struct Parts {
    front: usize,
    labelled: bool,
    back: usize,
}

// Where the field behind the one that ends at `end` ends: there, where it is the last.
fn next_end(line: &[u8], end: usize) -> usize
    requires { end ≤ length line.now }
    ensures within { result ≤ length line.now }
    ensures behind { end ≤ result }
    ensures fields { (k : ℕ) → FieldsEnd line.now (suc k) end → FieldsEnd line.now (suc (suc k)) result }
{
    if end == line.len() {
        return end;
    }
    piece_end(line, end + 1, b',')
}

impl Parts {
    // The label is a block's third field: it goes from a line of the first edition, and comes into one of the second.
    fn of_line(line: &[u8], edition: Edition) -> Parts
        ensures { Makes edition line.now result }
    {
        let whole = line.len();
        if !is_block_line(line) {
            return Parts {
                front: whole,
                labelled: false,
                back: whole,
            };
        }
        let letter_end = piece_end(line, 0, b',');
        let region_end = next_end(line, letter_end);
        match edition {
            Edition::First => Parts {
                front: region_end,
                labelled: false,
                back: next_end(line, region_end),
            },
            Edition::Second => Parts {
                front: region_end,
                labelled: true,
                back: region_end,
            },
        }
    }

    // What is written between.
    fn label(self) -> &'static [u8]
        ensures { result.now ≡ label_of self.labelled }
    {
        if self.labelled { b",0" } else { b"" }
    }
}

// How many bytes a converted line has, its line feed among them.
pub fn converted_length(line: &[u8], edition: Edition) -> usize
    requires { length line.now ≤ max_line }
    ensures length { result ≡ length (converted_line edition line.now) }
    ensures most { result ≤ length line.now + 3 }
{
    let parts = Parts::of_line(line, edition);
    parts.front + parts.label().len() + (line.len() - parts.back) + 1
}

// Writes a line converted, with its line feed.
pub fn put_converted(out: &mut LineWriter, line: &[u8], edition: Edition)
    requires { HasRoom (length (converted_line edition line.now)) out.old }
    ensures { Writes (length (converted_line edition line.now)) (converted_line edition line.now) out.old out.new }
{
    let parts = Parts::of_line(line, edition);
    out.put_text(&line[..parts.front]);
    out.put_text(parts.label());
    out.put_text(&line[parts.back..]);
    out.put_byte(b'\n');
}
