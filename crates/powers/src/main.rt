// Writes crates/repeated_runs/src/powers.rt: the table of powers that a window's hashes are multiplied by, computed here entry by entry.
#![tactic(auto)]

use std::io;

// How many entries there are: one for each place in the longest window.
const ENTRIES: usize = 256;

// What each entry is multiplied by for the next: FNV's prime.
const PRIME: u64 = 1099511628211;

// An entry's line.
fn entry(rt: &impl Print, power: u64) -> io::Result<()> {
    println!(rt; "    {power},")
}

// The lines of all entries. The first is 1.
fn entries(rt: &impl Print) -> io::Result<()> {
    let mut power: u64 = 1;
    for _ in 0..ENTRIES {
        entry(rt, power)?;
        power = power.wrapping_mul(PRIME);
    }
    Ok(())
}

fn table(rt: &impl Print) -> io::Result<()> {
    print!(rt; "// The powers of FNV's prime, 1099511628211, modulo 2^64: ")?;
    println!(rt; "the n-th entry, counted from 0, is its n-th power.")?;
    println!(rt; "pub const POWERS: [u64; 256] = [")?;
    entries(rt)?;
    println!(rt; "];")
}

// Where standard output fails, the lines that are left are not written, and that is all.
fn main(rt: HostRuntime) {
    let _ = table(&rt);
}
