// Runs the cases that are made of listings: what `twins`, `sums` and `convert` must print for them. They stand in the file that is this
// program's standard input; each line that it writes has a case, the programs that were run, and whether all holds. The first byte of a
// line of such a file says what the rest of it is:
//
//     -      a new group of cases, with nothing kept
//     <      a line of the listing
//     ~      text of the listing with no line feed behind it
//     %      one byte of the listing, by its number
//     >      a line that must be printed
//     *A,B,  a line that begins with <, ~ or >, once for each number from A to the one before B
//     +      what the listing has by now begins each case of the group
//     :      the name of a case; the case begins here
//     @      the listing becomes what `convert` prints for it, and the group keeps nothing more
//     =      run `twins`, `sums`, `both` of these or `convert`, and say whether all is printed that must be, and nothing else
//
// In <, ~ and > a / stands for a line feed and a # for the number of the turn. A line that is empty or begins with # is passed over. Any
// other line is shown, so that no case is passed over unseen.
#![tactic(auto)]

mod judging;
mod making;
mod reading;
mod running;

// Where standard input or output fails, the lines that are left are not written, and standard error says why.
fn main(rt: HostRuntime) {
    if let Err(error) = running::run(&rt) {
        let _ = eprintln!(rt; "{error}");
    }
}
