// The lines that build: each is read whole, and then its call is made. A list has no more items than its line has bytes.
ghost use Rattle.std.specs.Prelude.{◌+◌, ◌≤◌, length};
ghost use Rattle.rules.specs.Listings.{max_line};
ghost use Rattle.rules.specs.Lines.{operation_line, block_line, attribute_line, operand_line, wholly};
ghost use Rattle.layout.specs.Soundness.{IsSound};
ghost use Rattle.listing.specs.Building.{LineDid};

use layout::columns::StoreWords;
use lines::parsing::{attribute_line, block_line, operand_line, read_lists, read_op_fields};
use lines::reading::Fields;
use mutation::attributes::set_attribute;
use mutation::blocks::new_block;
use mutation::operands::set_operand;
use mutation::operations::new_operation;
use rules::limits::MAX_LINE;
use rules::types::{Cause, Edition};

pub fn operation_does(store: &mut StoreWords, line: &mut Fields<'_>) -> Result<(), Cause>
    requires sound { IsSound store.old }
    requires line_len_bound { length line.old ≤ max_line + 1 }
    ensures { LineDid store.old store.new (wholly (operation_line line.old)) result }
{
    let Some(fields) = read_op_fields(line) else {
        return Err(Cause::BadLine);
    };
    let mut types = [0; MAX_LINE];
    let mut operands = [0; MAX_LINE];
    let mut successors = [0; MAX_LINE];
    let Some(lists) = read_lists(line, &mut types, &mut operands, &mut successors) else {
        return Err(Cause::BadLine);
    };
    new_operation(
        store,
        fields,
        &types[..lists.types],
        &operands[..lists.operands],
        &successors[..lists.successors],
    )?;
    Ok(())
}

pub fn block_does(
    store: &mut StoreWords,
    line: &mut Fields<'_>,
    edition: Edition,
) -> Result<(), Cause>
    requires sound { IsSound store.old }
    requires line_len_bound { length line.old ≤ max_line + 1 }
    ensures { LineDid store.old store.new (wholly (block_line edition line.old)) result }
{
    let mut types = [0; MAX_LINE];
    let Some(block) = block_line(line, &mut types, edition) else {
        return Err(Cause::BadLine);
    };
    let types = &types[..block.arguments];
    new_block(store, block.region, block.location, types)?;
    Ok(())
}

pub fn attribute_does(
    store: &mut StoreWords,
    line: &mut Fields<'_>,
    inherent: bool,
) -> Result<(), Cause>
    requires { IsSound store.old }
    ensures { LineDid store.old store.new (wholly (attribute_line inherent line.old)) result }
{
    let Some(read) = attribute_line(line, inherent) else {
        return Err(Cause::BadLine);
    };
    set_attribute(store, read.owner, read.attribute)
}

pub fn operand_does(store: &mut StoreWords, line: &mut Fields<'_>) -> Result<(), Cause>
    requires { IsSound store.old }
    ensures { LineDid store.old store.new (wholly (operand_line line.old)) result }
{
    let Some(read) = operand_line(line) else {
        return Err(Cause::BadLine);
    };
    set_operand(store, read.operation, read.index, read.value)
}
