// The call that sets an operand: what it was is remembered while a mark is set.
ghost use Rattle.std.specs.Prelude.{◌≡◌, ◌+◌, ◌<◌, length, None};
ghost use Rattle.rules.specs.Building.{tests, first_failed, set_operand};
ghost use Rattle.rules.specs.Marks.{build};
ghost use Rattle.layout.specs.Columns.{buffer_length, columns, op_operand_first};
ghost use Rattle.layout.specs.Reading.{store_in};
ghost use Rattle.mutation.specs.Types.{done_of};
ghost use Rattle.layout.specs.MarkedReading.{mark_count, IsLent};
ghost use Rattle.undo_log.specs.MarkedCalls.{PerformsMarked};
ghost use Rattle.undo_log.specs.EntryWrites.{operand_entry};

use crate::entries::Entry;
use crate::remembering::{is_full, remember};
use layout::columns::{COUNTS, MARKS, OP_OPERAND_FIRST, OPERAND_WORDS, StoreWords, at, number};
use mutation::operands::{operand_cause, put_operand};
use rules::types::Cause;

// Operand i of operation n as it is.
#[tactic(auto, unfolding(crate::specs::EntryWrites::operand_entry))]
fn operand_was(store: &StoreWords, n: u32, i: u32) -> Entry
    requires n_bound { n < 512 }
    requires i_bound { Rattle.layout.specs.Columns.at (columns store.now) op_operand_first n + i < 2048 }
    ensures { result ≡ operand_entry (columns store.now) n i }
{
    let first = number(store, OP_OPERAND_FIRST, n as usize);
    let value = at(store, OPERAND_WORDS, first + i as usize);
    Entry::OperandWas {
        operation: n,
        index: i,
        value,
    }
}

// Replaces an operand that no test refuses, and remembers what it was, if that can be.
#[tactic(auto, using(crate::proofs::Lent::lent_facts))]
fn replace_operand(store: &mut StoreWords, n: u32, i: u32, v: u32) -> Result<(), Cause>
    requires lent { IsLent store.old }
    requires nonzero { 0 < mark_count (columns store.old) }
    requires v_value { first_failed (tests (store_in store.old) (set_operand (record { operation = n; index = i; value = v }))) ≡ None }
    ensures { PerformsMarked store.old store.new (build (set_operand (record { operation = n; index = i; value = v }))) (done_of result) }
{
    if is_full(store) {
        return Err(Cause::JournalFull);
    }
    let was = operand_was(store, n, i);
    put_operand(store, n, i, v);
    remember(store, was);
    Ok(())
}

// The call, on a lent buffer.
#[tactic(auto, using(crate::proofs::Lent::lent_facts), unfolding(layout::specs::MarkedReading::mark_count))]
pub fn set_operand(store: &mut StoreWords, n: u32, i: u32, v: u32) -> Result<(), Cause>
    requires { IsLent store.old }
    ensures { PerformsMarked store.old store.new (build (set_operand (record { operation = n; index = i; value = v }))) (done_of result) }
{
    if at(store, COUNTS, MARKS) == 0 {
        return mutation::operands::set_operand(store, n, i, v);
    }
    operand_cause(store, n, i, v)?;
    replace_operand(store, n, i, v)
}
