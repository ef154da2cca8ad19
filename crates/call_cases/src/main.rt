// Runs the cases that are made of calls, part by part, each under a heading. Most lines that it writes have a group of cases and whether
// the answers were those of the rules; of hashes and keys they have what was computed.
#![tactic(auto)]

mod building_cases;
mod forms;
mod hash_cases;
mod key_cases;
mod lent;
mod mapping_cases;
mod verdicts;

use std::io;
use verdicts::heading;

fn cases(rt: &impl Print) -> io::Result<()> {
    heading(rt, "Building calls and marks")?;
    building_cases::run(rt)?;
    heading(rt, "Comparisons with a lent mapping and renamed types")?;
    mapping_cases::run(rt)?;
    heading(rt, "Published vectors of 64-bit FNV-1a")?;
    hash_cases::run(rt)?;
    heading(rt, "Keys, how large they are, and their order")?;
    key_cases::run(rt)
}

// Where standard output fails, the lines that are left are not written, and that is all.
fn main(rt: HostRuntime) {
    let _ = cases(&rt);
}
