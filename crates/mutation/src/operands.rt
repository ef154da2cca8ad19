// The call that sets an operand.
ghost use Rattle.std.specs.Prelude.{◌≡◌, ◌+◌, ◌<◌, length};
ghost use Rattle.rules.specs.Building.{tests, first_failed, set_operand};
ghost use Rattle.layout.specs.Reading.{store_in};
ghost use Rattle.layout.specs.Columns.{buffer_length, columns, op_operand_first};
ghost use Rattle.layout.specs.Soundness.{IsSound};
ghost use Rattle.rules.specs.Causes.{cause_of};
ghost use Rattle.mutation.specs.SetWrites.{with_operand};
ghost use Rattle.mutation.specs.Types.{done_of};
ghost use Rattle.mutation.specs.Doing.{Performs};

use layout::columns::{
    OP_OPERAND_END, OP_OPERAND_FIRST, OPERAND_WORDS, StoreWords, at, number, put,
};
use layout::existing::{op_exists, value_exists};
use rules::types::Cause;

// The cause for which the call is refused, if there is one.
pub fn operand_cause(store: &StoreWords, n: u32, i: u32, v: u32) -> Result<(), Cause>
    requires { IsSound store.now }
    ensures { cause_of result ≡ first_failed (tests (store_in store.now) (set_operand (record { operation = n; index = i; value = v }))) }
{
    if !op_exists(store, n) || !value_exists(store, v) {
        return Err(Cause::NotThere);
    }
    let first = at(store, OP_OPERAND_FIRST, n as usize);
    if i >= at(store, OP_OPERAND_END, n as usize) - first {
        return Err(Cause::NoOperand);
    }
    Ok(())
}

// Operand i of operation n becomes value v.
pub fn put_operand(store: &mut StoreWords, n: u32, i: u32, v: u32)
    requires n_bound { n < 512 }
    requires i_bound { Rattle.layout.specs.Columns.at (columns store.old) op_operand_first n + i < 2048 }
    ensures { columns store.new ≡ with_operand (columns store.old) n i v }
{
    let first = number(store, OP_OPERAND_FIRST, n as usize);
    put(store, OPERAND_WORDS, first + i as usize, v);
}

// The call, on a sound buffer.
pub fn set_operand(store: &mut StoreWords, n: u32, i: u32, v: u32) -> Result<(), Cause>
    requires { IsSound store.old }
    ensures { Performs store.old store.new (set_operand (record { operation = n; index = i; value = v })) (done_of result) }
{
    operand_cause(store, n, i, v)?;
    put_operand(store, n, i, v);
    Ok(())
}
