// The letters in front of lines: what each says that the line is.
ghost use Rattle.std.specs.Prelude.{◌≡◌, drop, option_map};
ghost use Rattle.rules.specs.Lines.{fields_of, letter};
ghost use Rattle.rules.specs.Converting.{begins};
ghost use Rattle.lines.specs.Reading.{read, begins_with};
ghost use Rattle.lines.specs.Parsing.{line_behind};

use crate::reading::Fields;
use rules::types::Edition;

// A line, by its letter.
#[derive(Clone, Copy, PartialEq, Eq, Debug)]
pub enum Letter {
    Operation,
    Block,
    Attribute,
    Inherent,
    Operand,
    Query,
}

// The letter in front. `i` is one of the second edition alone.
#[tactic(auto, unfolding(rules::specs::Lines::letter, rules::specs::Lines::more_letters, rules::specs::Lines::field, rules::specs::Lines::one_of, rules::specs::Bytes::is_text, rules::specs::Lists::same_list))]
pub fn read_letter(fields: &mut Fields<'_>, edition: Edition) -> Option<Letter>
    ensures reads { letter edition fields.old ≡ read (option_map (line_behind edition) result) fields.new }
    ensures passed { fields.new ≡ drop 1 fields.old }
{
    match fields.letter()? {
        b'o' => Some(Letter::Operation),
        b'b' => Some(Letter::Block),
        b'a' => Some(Letter::Attribute),
        b's' => Some(Letter::Operand),
        b'q' => Some(Letter::Query),
        b'i' if edition == Edition::Second => Some(Letter::Inherent),
        _ => None,
    }
}

// Whether a line begins with this letter.
fn begins(line: &[u8], letter: u8) -> bool
    ensures { result ≡ begins_with letter (fields_of line.now) }
{
    Fields::new(line).letter() == Some(letter)
}

// Whether a line begins as one that makes a block.
pub fn is_block_line(line: &[u8]) -> bool
    ensures { result ≡ begins "b" (fields_of line.now) }
{
    begins(line, b'b')
}

// Whether a line begins as one that sets an inherent attribute, also in the first edition, which has none.
pub fn is_inherent_line(line: &[u8]) -> bool
    ensures { result ≡ begins "i" (fields_of line.now) }
{
    begins(line, b'i')
}
