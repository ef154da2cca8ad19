// Whether a line means something: it is read as the lines of its letter are, and nothing is kept of it.
ghost use Rattle.std.specs.Prelude.{◌≡◌, ◌+◌, ◌≤◌, length, is_some};
ghost use Rattle.rules.specs.Lines.{operation_line, block_line, wholly, parse};
ghost use Rattle.rules.specs.Listings.{max_line};
ghost use Rattle.lines.specs.Reading.{passing};
ghost use Rattle.lines.specs.Parsing.{operation_lists};

use crate::letters::{Letter, read_letter};
use crate::parsing::{attribute_line, operand_line, query_line, read_op_fields, skip_label};
use crate::reading::Fields;
use rules::types::Edition;

// The lists of an operation, of which nothing is kept; nothing more may be left.
#[tactic(auto, using(crate::proofs::Ended::lists_passed), unfolding(rules::specs::Lines::wholly))]
fn pass_lists(fields: &mut Fields<'_>) -> Option<()>
    ensures { wholly (passing operation_lists fields.old) ≡ result }
{
    fields.pass_items()?;
    fields.pass_items()?;
    fields.pass_items()?;
    fields.is_empty().then_some(())
}

fn is_operation(fields: &mut Fields<'_>) -> bool
    requires { length fields.old ≤ max_line + 1 }
    ensures { result ≡ is_some (wholly (operation_line fields.old)) }
{
    if read_op_fields(fields).is_none() {
        return false;
    }
    pass_lists(fields).is_some()
}

// The line of a block, of which nothing is kept.
#[tactic(auto, using(crate::proofs::Ended::block_passed), unfolding(rules::specs::Lines::wholly))]
fn pass_block(fields: &mut Fields<'_>, edition: Edition) -> Option<()>
    ensures { wholly (passing (block_line edition) fields.old) ≡ result }
{
    fields.number()?;
    skip_label(fields, edition)?;
    fields.number()?;
    fields.pass_items()?;
    fields.is_empty().then_some(())
}

// Whether a line of this edition means something.
pub fn is_meant(line: &[u8], edition: Edition) -> bool
    requires { length line.now ≤ max_line }
    ensures { result ≡ is_some (parse edition line.now) }
{
    let mut fields = Fields::new(line);
    let Some(letter) = read_letter(&mut fields, edition) else {
        return false;
    };
    match letter {
        Letter::Operation => is_operation(&mut fields),
        Letter::Block => pass_block(&mut fields, edition).is_some(),
        Letter::Attribute => attribute_line(&mut fields, false).is_some(),
        Letter::Inherent => attribute_line(&mut fields, true).is_some(),
        Letter::Operand => operand_line(&mut fields).is_some(),
        Letter::Query => query_line(&mut fields).is_some(),
    }
}
