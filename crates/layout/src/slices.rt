// An operation's slices of the two shared lists, lent out without a copy.
ghost use Rattle.std.specs.Prelude.{◌≡◌, ◌<◌};
ghost use Rattle.rules.specs.Store.{op_at};
ghost use Rattle.layout.specs.Columns.{columns};
ghost use Rattle.layout.specs.Reading.{op_count, store_in};
ghost use Rattle.layout.specs.Soundness.{Arranged};

use crate::columns::{
    OP_OPERAND_END, OP_OPERAND_FIRST, OP_SUCCESSOR_END, OP_SUCCESSOR_FIRST, OPERAND_WORDS,
    SUCCESSOR_WORDS, StoreWords,
};
use crate::rows::row_words;

// The operands of an operation.
pub fn operands_of(store: &StoreWords, n: usize) -> &[u32]
    requires arranged { Arranged store.now }
    requires n_bound { n < op_count (columns store.now) }
    ensures { result.now ≡ (op_at (store_in store.now) n).operands }
{
    row_words(store, OP_OPERAND_FIRST, OP_OPERAND_END, n, OPERAND_WORDS)
}

// The successors of an operation.
pub fn successors_of(store: &StoreWords, n: usize) -> &[u32]
    requires arranged { Arranged store.now }
    requires n_bound { n < op_count (columns store.now) }
    ensures { result.now ≡ (op_at (store_in store.now) n).successors }
{
    row_words(
        store,
        OP_SUCCESSOR_FIRST,
        OP_SUCCESSOR_END,
        n,
        SUCCESSOR_WORDS,
    )
}
