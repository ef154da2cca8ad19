// What a line of a case file says.
use lines::reading::Fields;
use programs::commands::Command;
use std::ops::Range;

// Where a text goes: into the listing, with a line feed behind it or without one, or among the lines that must be printed.
#[derive(Clone, Copy, Debug)]
pub enum Place {
    Line,
    Part,
    Wanted,
}

// What a line says; main.rt lists them.
#[derive(Debug, Drop)]
pub enum Line<'a> {
    PassedOver,
    Group,
    Kept,
    Name(&'a [u8]),
    // A text, once for each number of the range.
    Text(Place, &'a [u8], Range<u32>),
    Byte(u8),
    Converted,
    // The programs that are run, by their name and one by one.
    Judged(&'a [u8], &'static [Command]),
}

// The programs of a line `=`, in the order in which they are run.
fn commands_of(name: &[u8]) -> Option<&'static [Command]> {
    match name {
        b"twins" => Some(&[Command::Twins]),
        b"sums" => Some(&[Command::Sums]),
        b"both" => Some(&[Command::Twins, Command::Sums]),
        b"convert" => Some(&[Command::Convert]),
        _ => None,
    }
}

fn place_of(mark: u8) -> Option<Place> {
    match mark {
        b'<' => Some(Place::Line),
        b'~' => Some(Place::Part),
        b'>' => Some(Place::Wanted),
        _ => None,
    }
}

// A text in its turns.
fn text_in(line: &[u8], turns: Range<u32>) -> Option<Line<'_>> {
    let (mark, text) = line.split_first()?;
    Some(Line::Text(place_of(*mark)?, text, turns))
}

// The numbers of the turns, from the first up to the last, and the text behind them.
fn repeated(rest: &[u8]) -> Option<Line<'_>> {
    let mut fields = Fields::new(rest);
    let from = fields.number()?;
    let until = fields.number()?;
    text_in(fields.rest(), from..until)
}

fn byte_of(rest: &[u8]) -> Option<u8> {
    let number = Fields::new(rest).number()?;
    u8::try_from(number).ok()
}

// What a line says, if a case file may have it.
pub fn parsed(line: &[u8]) -> Option<Line<'_>> {
    let Some((mark, rest)) = line.split_first() else {
        return Some(Line::PassedOver);
    };
    match *mark {
        b'#' => Some(Line::PassedOver),
        b'-' => Some(Line::Group),
        b'+' => Some(Line::Kept),
        b':' => Some(Line::Name(rest)),
        b'*' => repeated(rest),
        b'%' => Some(Line::Byte(byte_of(rest)?)),
        b'@' => Some(Line::Converted),
        b'=' => Some(Line::Judged(rest, commands_of(rest)?)),
        _ => text_in(line, 0..1),
    }
}
