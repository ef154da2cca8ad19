// Reads a listing from standard input, and prints for each `q` of it what the comparison answers, and then the share.
#![tactic(auto)]

use programs::commands::Command;

fn main(rt: HostRuntime) {
    programs::standard::run(&rt, Command::Twins);
}
