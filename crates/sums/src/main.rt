// Reads a listing from standard input, and prints for each `q` of it both hashes.
#![tactic(auto)]

use programs::commands::Command;

fn main(rt: HostRuntime) {
    programs::standard::run(&rt, Command::Sums);
}
