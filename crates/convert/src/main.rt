// Reads a listing from standard input, and prints the same listing in the other edition.
#![tactic(auto)]

use programs::commands::Command;

fn main(rt: HostRuntime) {
    programs::standard::run(&rt, Command::Convert);
}
