// A case file, line by line.
use crate::judging::{convert, judge};
use crate::making::Case;
use crate::reading::{Line, parsed};
use std::io;
use std::io::Read;

// A line that no case file may have is shown.
fn show_unknown(rt: &impl Print, line: &[u8]) -> io::Result<()> {
    print!(rt; "unknown line: ")?;
    rt.write_all(line)?;
    println!(rt)
}

// Does what a line says.
fn follow(rt: &(impl Print + AllocGlobal), case: &mut Case, line: Line) -> io::Result<()> {
    match line {
        Line::PassedOver => {}
        Line::Group => case.begin_group(),
        Line::Kept => case.keep(),
        Line::Name(name) => case.begin(name)?,
        Line::Text(place, text, turns) => case.add_text(place, text, turns)?,
        Line::Byte(byte) => case.add_byte(byte)?,
        Line::Converted => convert(rt.alloc(), case)?,
        Line::Judged(name, commands) => {
            judge(rt, case, name, commands)?;
            // The case keeps its listing: another program may be run on it.
            case.want_nothing();
        }
    }
    Ok(())
}

// All lines.
fn run_lines(rt: &(impl Print + AllocGlobal), text: &[u8]) -> io::Result<()> {
    let mut case = Case::new(rt.alloc());
    for line in text.split(|byte| *byte == b'\n') {
        match parsed(line) {
            Some(known) => follow(rt, &mut case, known)?,
            None => show_unknown(rt, line)?,
        }
    }
    Ok(())
}

// The case file that stands on standard input.
pub fn run(rt: &(impl Input + Print + AllocGlobal)) -> io::Result<()> {
    let mut text = Vec::new(rt.alloc());
    rt.reader().read_to_end(&mut text)?;
    run_lines(rt, text.as_slice())
}
