// The case that is being made.
use crate::reading::Place;
use std::alloc::{AllocError, Global};
use std::io;
use std::io::Write;
use std::ops::Range;

// Its name, its listing and what must be printed for it; and how many bytes of the listing begin each case of its group.
#[derive(Drop)]
pub struct Case {
    name: Vec<u8>,
    listing: Vec<u8>,
    wanted: Vec<u8>,
    kept: usize,
}

// A byte of a text in one of its turns: `#` stands for the number of the turn, and `/` for a line feed.
fn put_byte(to: &mut Vec<u8>, byte: u8, turn: u32) -> io::Result<()> {
    match byte {
        b'#' => write!(to, "{turn}"),
        b'/' => Ok(to.push(b'\n')?),
        _ => Ok(to.push(byte)?),
    }
}

// A text in one of its turns.
fn put_part(to: &mut Vec<u8>, text: &[u8], turn: u32) -> io::Result<()> {
    for byte in text {
        put_byte(to, *byte, turn)?;
    }
    Ok(())
}

// The same with a line feed behind it.
fn put_line(to: &mut Vec<u8>, text: &[u8], turn: u32) -> io::Result<()> {
    put_part(to, text, turn)?;
    Ok(to.push(b'\n')?)
}

impl Case {
    // Nothing is made yet.
    pub fn new(alloc: Global) -> Case {
        Case {
            name: Vec::new(alloc),
            listing: Vec::new(alloc),
            wanted: Vec::new(alloc),
            kept: 0,
        }
    }

    // The name by which it is printed.
    pub fn name(&self) -> &[u8] {
        self.name.as_slice()
    }

    // The listing as far as it is made.
    pub fn listing(&self) -> &[u8] {
        self.listing.as_slice()
    }

    // What must be printed for the listing.
    pub fn wanted(&self) -> &[u8] {
        self.wanted.as_slice()
    }

    // A new group of cases, with nothing kept.
    pub fn begin_group(&mut self) {
        self.kept = 0;
        self.name.clear();
        self.listing.clear();
        self.wanted.clear();
    }

    // A case begins with what its group has kept.
    pub fn begin(&mut self, name: &[u8]) -> Result<(), AllocError> {
        self.listing.truncate(self.kept);
        self.wanted.clear();
        self.name.clear();
        self.name.extend_from_slice(name)
    }

    // What the listing has by now begins each case of the group.
    pub fn keep(&mut self) {
        self.kept = self.listing.len();
    }

    // Nothing is wanted of the program that is run next.
    pub fn want_nothing(&mut self) {
        self.wanted.clear();
    }

    // Another listing in place of this one; of the group's common start nothing is kept.
    pub fn replace_listing(&mut self, listing: &[u8]) -> Result<(), AllocError> {
        self.kept = 0;
        self.listing.clear();
        self.listing.extend_from_slice(listing)
    }

    // One byte more of the listing.
    pub fn add_byte(&mut self, byte: u8) -> Result<(), AllocError> {
        Ok(self.listing.push(byte)?)
    }

    fn add_turn(&mut self, place: Place, text: &[u8], turn: u32) -> io::Result<()> {
        match place {
            Place::Line => put_line(&mut self.listing, text, turn),
            Place::Part => put_part(&mut self.listing, text, turn),
            Place::Wanted => put_line(&mut self.wanted, text, turn),
        }
    }

    // A text in all its turns.
    pub fn add_text(&mut self, place: Place, text: &[u8], turns: Range<u32>) -> io::Result<()> {
        for turn in turns {
            self.add_turn(place, text, turn)?;
        }
        Ok(())
    }
}
