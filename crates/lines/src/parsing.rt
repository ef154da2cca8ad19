// The lines of a listing, from behind their first letter on. A line that has more fields than it may have is bad.
ghost use Rattle.std.specs.Prelude.{◌≡◌, ℕ, ◌+◌, ◌≤◌, List, length, option_map};
ghost use Rattle.rules.specs.Lines.{yes_or_no, sort, label, attribute_line, operand_line, query_line, wholly};
ghost use Rattle.lines.specs.Reading.{read};
ghost use Rattle.lines.specs.Parsing.{owner_fields, fields_as, operation_fields, attribute_line_of, operand_line_of, query_of, ReadBlock, ReadLists};

use crate::reading::Fields;
use mutation::types::OpFields;
use rules::types::{Attribute, Edition, Ignore, Owner, Sort};

// How many results, operands and successors there are.
#[derive(Clone, Copy)]
pub struct OpLists {
    pub types: usize,
    pub operands: usize,
    pub successors: usize,
}

// A line that makes a block: what it is given, and how many arguments there are.
#[derive(Clone, Copy)]
pub struct BlockLine {
    pub region: u32,
    pub location: u32,
    pub arguments: usize,
}

// A line that sets an attribute.
#[derive(Clone, Copy)]
pub struct AttributeLine {
    pub owner: Owner,
    pub attribute: Attribute,
}

// A line that sets an operand.
#[derive(Clone, Copy)]
pub struct OperandLine {
    pub operation: u32,
    pub index: u32,
    pub value: u32,
}

// A sort of fragment, left, right, and the ignore rule.
#[derive(Clone, Copy)]
pub struct Query {
    pub sort: Sort,
    pub left: u32,
    pub right: u32,
    pub ignore: Ignore,
}

// `o`, `b` or `r`.
#[tactic(auto, unfolding(rules::specs::Lines::sort, rules::specs::Lines::field, rules::specs::Lines::one_of, rules::specs::Bytes::is_text, rules::specs::Lists::same_list))]
fn read_sort(fields: &mut Fields<'_>) -> Option<Sort>
    ensures { sort fields.old ≡ read result fields.new }
{
    match fields.letter()? {
        b'o' => Some(Sort::Op),
        b'b' => Some(Sort::Block),
        b'r' => Some(Sort::Region),
        _ => None,
    }
}

// 1 for yes or 0 for no.
#[tactic(auto, unfolding(rules::specs::Lines::yes_or_no))]
fn yes_or_no(n: u32) -> Option<bool>
    ensures { (fs : List (List ℕ)) → yes_or_no n fs ≡ read result fs }
{
    match n {
        0 => Some(false),
        1 => Some(true),
        _ => None,
    }
}

// `o` or `b`, and a number.
#[tactic(auto, unfolding(crate::specs::Parsing::owner_fields, rules::specs::Lines::owner, rules::specs::Lines::field, rules::specs::Lines::one_of, rules::specs::Bytes::is_text, rules::specs::Lists::same_list))]
fn read_owner(fields: &mut Fields<'_>) -> Option<Owner>
    ensures { owner_fields fields.old ≡ read result fields.new }
{
    let letter = fields.letter()?;
    let n = fields.number()?;
    match letter {
        b'o' => Some(Owner::Op(n)),
        b'b' => Some(Owner::Block(n)),
        _ => None,
    }
}

// What stands in an operation's line before its lists.
#[tactic(auto, unfolding(crate::specs::Parsing::operation_fields))]
pub fn read_op_fields(fields: &mut Fields<'_>) -> Option<OpFields>
    ensures reads { operation_fields fields.old ≡ read (option_map fields_as result) fields.new }
    ensures fewer { length fields.new ≤ length fields.old }
{
    let kind = fields.number()?;
    let parent = fields.parent()?;
    let location = fields.number()?;
    let regions = fields.number()?;
    Some(OpFields {
        kind,
        parent,
        location,
        regions,
    })
}

// An operation's lists, each written to the start of the buffer for it.
#[tactic(auto, unfolding(crate::specs::Parsing::operation_lists, rules::specs::Lines::wholly))]
pub fn read_lists(
    fields: &mut Fields<'_>,
    types: &mut [u32],
    operands: &mut [u32],
    successors: &mut [u32],
) -> Option<OpLists>
    requires types_fit { length fields.old ≤ length types.old + 1 }
    requires operands_fit { length fields.old ≤ length operands.old + 1 }
    requires successors_fit { length fields.old ≤ length successors.old + 1 }
    ensures { ReadLists fields.old types.new operands.new successors.new result }
{
    let types = fields.items(types)?;
    let operands = fields.items(operands)?;
    let successors = fields.items(successors)?;
    fields.is_empty().then_some(OpLists {
        types,
        operands,
        successors,
    })
}

// The label of a block, which stands in the first edition alone: it must be a number, and is dropped.
#[tactic(auto, unfolding(rules::specs::Lines::label))]
pub fn skip_label(fields: &mut Fields<'_>, edition: Edition) -> Option<()>
    ensures reads { label edition fields.old ≡ read result fields.new }
    ensures fewer { length fields.new ≤ length fields.old }
{
    if edition == Edition::First {
        fields.number()?;
    }
    Some(())
}

// `b` region, location, arguments, whose types are written to the start of `types`; behind the region a label in the first edition.
#[tactic(auto, unfolding(rules::specs::Lines::block_line, rules::specs::Lines::wholly))]
pub fn block_line(fields: &mut Fields<'_>, types: &mut [u32], edition: Edition) -> Option<BlockLine>
    requires { length fields.old ≤ length types.old + 1 }
    ensures { ReadBlock edition fields.old types.new result }
{
    let region = fields.number()?;
    skip_label(fields, edition)?;
    let location = fields.number()?;
    let arguments = fields.items(types)?;
    fields.is_empty().then_some(BlockLine {
        region,
        location,
        arguments,
    })
}

// `a` or `i`: o or b, number, key, kind, content. Which of the two letters it is says whether the attribute is inherent. (By a branch: with
// `then_some` the line is made, and moved word by word, where it is bad too.)
#[tactic(auto, unfolding(rules::specs::Lines::attribute_line, rules::specs::Lines::wholly))]
pub fn attribute_line(fields: &mut Fields<'_>, inherent: bool) -> Option<AttributeLine>
    ensures { wholly (attribute_line inherent fields.old) ≡ (option_map attribute_line_of result) }
{
    let owner = read_owner(fields)?;
    let key = fields.number()?;
    let kind = fields.number()?;
    let content = fields.number()?;
    let attribute = Attribute {
        key,
        kind,
        content,
        inherent,
    };
    if !fields.is_empty() {
        return None;
    }
    Some(AttributeLine { owner, attribute })
}

// `s` operation, index, value.
#[tactic(auto, unfolding(rules::specs::Lines::operand_line, rules::specs::Lines::wholly))]
pub fn operand_line(fields: &mut Fields<'_>) -> Option<OperandLine>
    ensures { wholly (operand_line fields.old) ≡ (option_map operand_line_of result) }
{
    let operation = fields.number()?;
    let index = fields.number()?;
    let value = fields.number()?;
    fields.is_empty().then_some(OperandLine {
        operation,
        index,
        value,
    })
}

// `q` o, b or r, left, right, 1 to ignore locations or 0 not to, the 64 bits as one number.
#[tactic(auto, unfolding(rules::specs::Lines::query_line, rules::specs::Lines::wholly))]
pub fn query_line(fields: &mut Fields<'_>) -> Option<Query>
    ensures { wholly (query_line fields.old) ≡ (option_map query_of result) }
{
    let sort = read_sort(fields)?;
    let left = fields.number()?;
    let right = fields.number()?;
    let flag = fields.number()?;
    let locations = yes_or_no(flag)?;
    let bits = fields.bits()?;
    let ignore = Ignore { locations, bits };
    fields.is_empty().then_some(Query {
        sort,
        left,
        right,
        ignore,
    })
}
