// The offered calls that change a store: each refuses a buffer that is not sound, with the tables of its marks, and then does what the call of
// the same name does on a lent one.
ghost use Rattle.rules.specs.Building.{new_operation, new_block, set_attribute, set_operand};
ghost use Rattle.rules.specs.Marks.{build, set_mark, go_back};
ghost use Rattle.mutation.specs.Types.{made_of, done_of};
ghost use Rattle.api.specs.Building.{CallAnswers};

use mutation::types::OpFields;
use rules::types::{Attribute, Cause, Owner};
use validation::lent::sound_words_mut;

pub fn new_operation(
    store: &mut [u32],
    kind: u32,
    parent: Option<u32>,
    location: u32,
    regions: u32,
    types: &[u32],
    operands: &[u32],
    successors: &[u32],
) -> Result<u32, Cause>
    ensures { CallAnswers store.old store.new (build (new_operation (record {
      kind = kind;
      parent = parent;
      location = location;
      regions = regions;
      types = types.now;
      operands = operands.now;
      successors = successors.now;
    }))) (made_of result) }
{
    let words = sound_words_mut(store).ok_or(Cause::NotSound)?;
    let fields = OpFields {
        kind,
        parent,
        location,
        regions,
    };
    undo_log::adding_calls::new_operation(words, fields, types, operands, successors)
}

pub fn new_block(store: &mut [u32], region: u32, location: u32, types: &[u32]) -> Result<u32, Cause>
    ensures { CallAnswers store.old store.new (build (new_block (record {
      region = region;
      location = location;
      types = types.now;
    }))) (made_of result) }
{
    let words = sound_words_mut(store).ok_or(Cause::NotSound)?;
    undo_log::adding_calls::new_block(words, region, location, types)
}

pub fn set_attribute(store: &mut [u32], owner: Owner, attribute: Attribute) -> Result<(), Cause>
    ensures { CallAnswers store.old store.new (build (set_attribute owner attribute)) (done_of result) }
{
    let words = sound_words_mut(store).ok_or(Cause::NotSound)?;
    undo_log::attributes::set_attribute(words, owner, attribute)
}

// Operand i of operation n becomes value v.
pub fn set_operand(store: &mut [u32], n: u32, i: u32, v: u32) -> Result<(), Cause>
    ensures { CallAnswers store.old store.new (build (set_operand (record { operation = n; index = i; value = v }))) (done_of result) }
{
    let words = sound_words_mut(store).ok_or(Cause::NotSound)?;
    undo_log::operands::set_operand(words, n, i, v)
}

// Mark `mark`, a number from 1 to 8, names the store as it stands now; set again, it moves, and is the youngest.
pub fn set_mark(store: &mut [u32], mark: u32) -> Result<(), Cause>
    ensures { CallAnswers store.old store.new (set_mark mark) (done_of result) }
{
    let words = sound_words_mut(store).ok_or(Cause::NotSound)?;
    undo_log::marking::set_mark(words, mark)
}

// The store is again as it stood when the mark was set. The mark stays set, and younger ones are void.
pub fn go_back(store: &mut [u32], mark: u32) -> Result<(), Cause>
    ensures { CallAnswers store.old store.new (go_back mark) (done_of result) }
{
    let words = sound_words_mut(store).ok_or(Cause::NotSound)?;
    undo_log::going_back::go_back(words, mark)
}
