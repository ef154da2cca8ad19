// What is printed of groups of cases.
use std::io;

// The line above the cases of a part.
pub fn heading(rt: &impl Print, part: &str) -> io::Result<()> {
    println!(rt; "--- {part}")
}

// The word for a group of which all holds, and for any other.
pub fn verdict(holds: bool) -> &'static str {
    if holds { "holds" } else { "FAILS" }
}

// The line of a group.
pub fn say(rt: &impl Print, group: &str, holds: bool) -> io::Result<()> {
    let verdict = verdict(holds);
    println!(rt; "{group}: {verdict}")
}
