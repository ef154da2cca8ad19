// The fields of one line, which is its bytes before the line feed. A small record refers to the line and has the position of the next field.
// Its methods are thin: `field_at` gives the field at a position, other functions what it stands for, and the record steps behind its comma.
ghost use Rattle.std.specs.Prelude.{◌≡◌, ◌≢◌, ◌+◌, ◌^◌, ◌≤◌, [], ◌∷◌, length, drop, MatchOption, option_map};
ghost use Rattle.rules.specs.Bytes.{is_digit, number_below};
ghost use Rattle.rules.specs.Lines.{fields_of, field, number, numbers, items, ignore_bits, parent_block, parent_meaning};
ghost use Rattle.lines.specs.Fields.{fields_left, FieldRead};
ghost use Rattle.lines.specs.Reading.{nothing_left, one_byte, starts_well, read, passing, ReadItems};

use crate::pieces::piece_end;
use crate::texts::same_bytes;
use std::marker::Model;

// A line and a position in it: where `Fields` stands, to be kept and come back to.
#[derive(Clone, Copy)]
pub struct Reader<'a> {
    pub line: &'a [u8],
    pub at: usize,
}

// A line, and the position at which its next field begins: one past the line's end where the last field was read. A clause sees the list
// of the fields that are not read yet.
#[derive(Clone, Drop)]
pub struct Fields<'a> {
    line: &'a [u8],
    at: usize,
}

impl<'a> Model for Fields<'a> {
    ghost use Rattle.std.specs.Prelude.{List, ℕ, ◌+◌, ◌≤◌, length};
    ghost use Rattle.lines.specs.Fields.{fields_left};

    ghost Value = { List (List ℕ) };

    ghost view = { λ s. fields_left s.line.now s.at };

    ghost invariant = { λ s. s.at ≤ length s.line.now + 1 };
}

impl<'a> Fields<'a> {
    // All fields of a line.
    #[tactic(auto, using(crate::proofs::Firsts::few_fields))]
    pub fn new(line: &'a [u8]) -> Fields<'a>
        ensures fields { result ≡ fields_of line.now }
        ensures few { length result ≤ length line.now + 1 }
    {
        Fields { line, at: 0 }
    }

    // The fields from a position on: none behind the line's end.
    pub fn from_reader(reader: &Reader<'a>) -> Fields<'a>
        requires { reader.now.at ≤ length reader.now.line.now + 1 }
        ensures { result ≡ fields_left reader.now.line.now reader.now.at }
    {
        Fields {
            line: reader.line,
            at: reader.at,
        }
    }

    // Where the next field begins.
    pub fn reader(&self) -> Reader<'a>
        ensures left { fields_left result.line.now result.at ≡ self.now }
        ensures within { result.at ≤ length result.line.now + 1 }
    {
        Reader {
            line: self.line,
            at: self.at,
        }
    }

    // No field is left.
    #[tactic(auto, using(crate::proofs::Firsts::none_behind))]
    pub fn is_empty(&self) -> bool
        ensures { result ≡ nothing_left self.now }
    {
        self.at > self.line.len()
    }

    // The bytes that are not read yet: none where no field is left.
    #[tactic(auto, using(crate::proofs::Firsts::none_left_behind))]
    pub fn rest(&self) -> &'a [u8]
        ensures left { self.now ≢ [] → self.now ≡ fields_of result.now }
        ensures ended { self.now ≡ [] → result.now ≡ [] }
    {
        self.line.get(self.at..).unwrap_or(b"")
    }

    // The next field.
    fn next(&mut self) -> Option<&'a [u8]>
        ensures { MatchOption result ((self.old ≡ []) × (self.new ≡ [])) (λ f. self.old ≡ f.now ∷ self.new) }
    {
        let field = field_at(self.line, self.at)?;
        self.at += field.len() + 1;
        Some(field)
    }

    // A number within 32 bits.
    #[tactic(auto, unfolding(rules::specs::Lines::number, rules::specs::Lines::field))]
    pub fn number(&mut self) -> Option<u32>
        ensures reads { number self.old ≡ read result self.new }
        ensures passed { self.new ≡ drop 1 self.old }
    {
        let field = self.next()?;
        parse_u32(field)
    }

    // A number within 64 bits.
    #[tactic(auto, unfolding(rules::specs::Lines::ignore_bits, rules::specs::Lines::field))]
    pub fn bits(&mut self) -> Option<u64>
        ensures reads { ignore_bits self.old ≡ read result self.new }
        ensures passed { self.new ≡ drop 1 self.old }
    {
        let field = self.next()?;
        parse_u64(field)
    }

    // The byte of a field of one byte.
    #[tactic(auto, unfolding(rules::specs::Lines::field))]
    pub fn letter(&mut self) -> Option<u8>
        ensures reads { field one_byte self.old ≡ read result self.new }
        ensures passed { self.new ≡ drop 1 self.old }
    {
        let field = self.next()?;
        parse_letter(field)
    }

    // A parent block or `-`.
    #[tactic(auto, unfolding(rules::specs::Lines::field, rules::specs::Lines::parent_block))]
    pub fn parent(&mut self) -> Option<Option<u32>>
        ensures reads { parent_block self.old ≡ read result self.new }
        ensures passed { self.new ≡ drop 1 self.old }
    {
        let field = self.next()?;
        parse_parent(field)
    }

    // As many numbers as `list` has words, which are written to it.
    pub fn numbers(&mut self, list: &mut [u32]) -> Option<()>
        ensures { numbers (length list.old) self.old ≡ read (option_map (λ _. list.new) result) self.new }
    {
        for x in list.iter_mut() {
            *x = self.number()?;
        }
        Some(())
    }

    // A list: how many items, then the items, which are written to the start of `list`. They fit, since each has a field.
    pub fn items(&mut self, list: &mut [u32]) -> Option<usize>
        requires { length self.old ≤ length list.old + 1 }
        ensures { ReadItems self.old self.new list.new result }
    {
        let count = self.number()? as usize;
        if count > list.len() {
            return None;
        }
        self.numbers(&mut list[..count])?;
        Some(count)
    }

    // A list of which nothing is kept. Its count may be beyond all that is there: the loop ends at the first item that is missing.
    pub fn pass_items(&mut self) -> Option<()>
        ensures { passing items self.old ≡ read result self.new }
    {
        let count = self.number()?;
        for _ in 0..count {
            self.number()?;
        }
        Some(())
    }
}

// The bytes of the field that begins at a position, up to the next comma or to the line's end; none behind the last field.
#[tactic(auto, using(crate::proofs::Firsts::field_read), unfolding(layout::specs::Reading::slice))]
fn field_at(line: &[u8], at: usize) -> Option<&[u8]>
    ensures { MatchOption result (fields_left line.now at ≡ []) (λ f. FieldRead line.now at f.now) }
{
    if at > line.len() {
        return None;
    }
    let end = piece_end(line, at, b',');
    Some(&line[at..end])
}

// The byte is a decimal digit.
#[tactic(auto, unfolding(rules::specs::Bytes::is_digit))]
fn is_digit(b: u8) -> bool
    ensures { result ≡ is_digit b }
{
    matches!(b, b'0'..=b'9')
}

// The bytes may be a number, by how they start: there is at least one, and no leading `0`.
fn starts_well(digits: &[u8]) -> bool
    ensures { result ≡ starts_well digits.now }
{
    match digits {
        [] => false,
        [_] => true,
        [first, ..] => *first != b'0',
    }
}

// The number within 64 bits that the bytes stand for. (A test and a difference: a digit as an `Option` is tested twice at each byte.)
#[tactic(auto, unfolding(rules::specs::Bytes::is_digit))]
fn parse_u64(digits: &[u8]) -> Option<u64>
    ensures { number_below (2 ^ 64) digits.now ≡ result }
{
    if !starts_well(digits) {
        return None;
    }
    let mut n: u64 = 0;
    for b in digits {
        if !is_digit(*b) {
            return None;
        }
        let d = (*b - b'0') as u64;
        n = n.checked_mul(10)?.checked_add(d)?;
    }
    Some(n)
}

// The number within 32 bits that the bytes stand for.
fn parse_u32(digits: &[u8]) -> Option<u32>
    ensures { number_below (2 ^ 32) digits.now ≡ result }
{
    let n = parse_u64(digits)?;
    u32::try_from(n).ok()
}

// The byte that a field of one byte is.
fn parse_letter(field: &[u8]) -> Option<u8>
    ensures { one_byte field.now ≡ result }
{
    match field {
        [byte] => Some(*byte),
        _ => None,
    }
}

// The parent block that the bytes stand for, which `-` says is none.
#[tactic(auto, unfolding(rules::specs::Lines::parent_meaning, rules::specs::Bytes::is_text))]
fn parse_parent(field: &[u8]) -> Option<Option<u32>>
    ensures { parent_meaning field.now ≡ result }
{
    if same_bytes(field, b"-") {
        return Some(None);
    }
    let block = parse_u32(field)?;
    Some(Some(block))
}
