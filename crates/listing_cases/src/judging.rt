// What the programs print for a case is compared with what they must print.
ghost use Rattle.std.specs.Prelude.{◌≡◌, ◌↔◌, All, IfOk, IsTrue};
ghost use Rattle.programs.specs.Commands.{output_of};

use crate::making::Case;
use listing::calls::ROOM;
use programs::answers::printed;
use programs::commands::Command;
use std::alloc::{AllocError, Global};
use std::io;

// The program prints all that it must, and nothing else.
fn prints(command: Command, listing: &[u8], wanted: &[u8]) -> bool
    ensures { IsTrue result ↔ (output_of command listing.now ≡ wanted.now) }
{
    let mut out = [0; ROOM];
    let n = printed(command, listing, &mut out);
    &out[..n] == wanted
}

// The same of each of the programs.
fn all_print(commands: &[Command], listing: &[u8], wanted: &[u8]) -> bool
    ensures { IsTrue result ↔ All (λ command. output_of command listing.now ≡ wanted.now) commands.now }
{
    commands
        .iter()
        .all(|command| prints(*command, listing, wanted))
}

// What the program prints.
fn output(alloc: Global, command: Command, listing: &[u8]) -> Result<Vec<u8>, AllocError>
    ensures { IfOk result (λ bytes. bytes.items ≡ output_of command listing.now) }
{
    let mut out = [0; ROOM];
    let n = printed(command, listing, &mut out);
    Vec::from_slice(alloc, &out[..n])
}

fn name_of(command: Command) -> &'static str {
    match command {
        Command::Twins => "twins",
        Command::Sums => "sums",
        Command::Convert => "convert",
    }
}

// Shows what each of the programs prints.
fn show(rt: &(impl Print + AllocGlobal), commands: &[Command], listing: &[u8]) -> io::Result<()> {
    for command in commands {
        let name = name_of(*command);
        println!(rt; "{name} prints:")?;
        rt.write_all(output(rt.alloc(), *command, listing)?.as_slice())?;
    }
    Ok(())
}

// Runs the programs of this name on a case, and prints its line with the verdict.
pub fn judge(
    rt: &(impl Print + AllocGlobal),
    case: &Case,
    name: &[u8],
    commands: &[Command],
) -> io::Result<()> {
    rt.write_all(case.name())?;
    print!(rt; " (")?;
    rt.write_all(name)?;
    if all_print(commands, case.listing(), case.wanted()) {
        return println!(rt; "): holds");
    }
    println!(rt; "): FAILS")?;
    show(rt, commands, case.listing())
}

// The listing of a case becomes what `convert` prints for it.
pub fn convert(alloc: Global, case: &mut Case) -> Result<(), AllocError> {
    let converted = output(alloc, Command::Convert, case.listing())?;
    case.replace_listing(converted.as_slice())
}
