// The columns of the buffer, and reading and writing in them. Whatever else touches the buffer does so through these functions.
ghost use Rattle.std.specs.Prelude.{◌≡◌, ◌∷◌, ◌+◌, ◌-◌, ◌<◌, ◌≤◌, length, replicate};
ghost use Rattle.layout.specs.Columns.{buffer_length, column_size, columns, at, write, write_range, column_count};
ghost use Rattle.layout.specs.Reading.{slice};

use crate::lists::{copy_at, fill_at, insert_at};

// The buffer's length in words.
pub const STORE_LENGTH: usize = 45408;

// The buffer.
pub type StoreWords = [u32; STORE_LENGTH];

// How many there are of each thing: the words of the first column.
pub const COUNTS: usize = 0;

pub const OPS: usize = 0;

pub const BLOCKS: usize = 1;

pub const REGIONS: usize = 2;

pub const VALUES: usize = 3;

pub const OPERANDS: usize = 4;

pub const SUCCESSORS: usize = 5;

pub const ATTRIBUTES: usize = 6;

pub const MARKS: usize = 7;

// Of an operation.
pub const OP_KIND: usize = 1;

pub const OP_PARENT: usize = 2;

pub const OP_LOCATION: usize = 3;

pub const OP_DEPTH: usize = 4;

pub const OP_REGION_FIRST: usize = 5;

pub const OP_REGION_END: usize = 6;

pub const OP_RESULT_FIRST: usize = 7;

pub const OP_RESULT_END: usize = 8;

pub const OP_OPERAND_FIRST: usize = 9;

pub const OP_OPERAND_END: usize = 10;

pub const OP_SUCCESSOR_FIRST: usize = 11;

pub const OP_SUCCESSOR_END: usize = 12;

pub const OP_ATTRIBUTES: usize = 13;

// Of a region.
pub const REGION_OP: usize = 14;

pub const REGION_BLOCK_FIRST: usize = 15;

pub const REGION_BLOCK_END: usize = 16;

// Of a block.
pub const BLOCK_REGION: usize = 17;

pub const BLOCK_LOCATION: usize = 18;

pub const BLOCK_ARGUMENT_FIRST: usize = 19;

pub const BLOCK_ARGUMENT_END: usize = 20;

pub const BLOCK_OP_FIRST: usize = 21;

pub const BLOCK_OP_END: usize = 22;

pub const BLOCK_ATTRIBUTES: usize = 23;

// Of a value.
pub const VALUE_TYPE: usize = 24;

pub const VALUE_OWNER: usize = 25;

// The shared lists.
pub const OPERAND_WORDS: usize = 26;

pub const SUCCESSOR_WORDS: usize = 27;

// Of an attribute slot.
pub const SLOT_KEY: usize = 28;

pub const SLOT_KIND: usize = 29;

pub const SLOT_CONTENT: usize = 30;

// Where the slots of blocks begin, behind those of operations.
pub const FIRST_BLOCK_SLOT: usize = 4096;

// Of an operation in a block, and of a block: the next operation of the block, the next block of the region, or 0.
pub const OP_NEXT: usize = 31;

pub const BLOCK_NEXT: usize = 32;

// Of a set mark: its number, its place in the journal, and 8 words each of the counts at its setting.
pub const MARK_NUMBER: usize = 33;

pub const MARK_PLACE: usize = 34;

pub const MARK_COUNTS: usize = 35;

// How many entries the journal has, and how many of them are replacements.
pub const JOURNAL_COUNTS: usize = 36;

pub const ENTRIES: usize = 0;

pub const REPLACED: usize = 1;

// Of an entry of the journal: what it tells, of whom, and how it was.
pub const JOURNAL_SORT: usize = 37;

pub const JOURNAL_OWNER: usize = 38;

pub const JOURNAL_KEY: usize = 39;

pub const JOURNAL_KIND: usize = 40;

pub const JOURNAL_CONTENT: usize = 41;

// Where a column begins. A match and no table: a table would be built on the stack wherever the column isn't a constant.
fn base(column: usize) -> usize
    requires { column < column_count }
    ensures { result ≡ Rattle.layout.specs.Columns.base column }
{
    match column {
        COUNTS => 0,
        OP_KIND => 8,
        OP_PARENT => 520,
        OP_LOCATION => 1032,
        OP_DEPTH => 1544,
        OP_REGION_FIRST => 2056,
        OP_REGION_END => 2568,
        OP_RESULT_FIRST => 3080,
        OP_RESULT_END => 3592,
        OP_OPERAND_FIRST => 4104,
        OP_OPERAND_END => 4616,
        OP_SUCCESSOR_FIRST => 5128,
        OP_SUCCESSOR_END => 5640,
        OP_ATTRIBUTES => 6152,
        REGION_OP => 6664,
        REGION_BLOCK_FIRST => 6920,
        REGION_BLOCK_END => 7176,
        BLOCK_REGION => 7432,
        BLOCK_LOCATION => 7688,
        BLOCK_ARGUMENT_FIRST => 7944,
        BLOCK_ARGUMENT_END => 8200,
        BLOCK_OP_FIRST => 8456,
        BLOCK_OP_END => 8712,
        BLOCK_ATTRIBUTES => 8968,
        VALUE_TYPE => 9224,
        VALUE_OWNER => 11272,
        OPERAND_WORDS => 13320,
        SUCCESSOR_WORDS => 15368,
        SLOT_KEY => 15880,
        SLOT_KIND => 22024,
        SLOT_CONTENT => 28168,
        OP_NEXT => 34312,
        BLOCK_NEXT => 34824,
        MARK_NUMBER => 35080,
        MARK_PLACE => 35088,
        MARK_COUNTS => 35096,
        JOURNAL_COUNTS => 35160,
        JOURNAL_SORT => 35168,
        JOURNAL_OWNER => 37216,
        JOURNAL_KEY => 39264,
        JOURNAL_KIND => 41312,
        _ => 43360,
    }
}

// One word of a column.
pub fn at(store: &StoreWords, column: usize, n: usize) -> u32
    requires column_lt_column_count { column < column_count }
    requires n_bound { n < column_size column }
    ensures { result ≡ Rattle.layout.specs.Columns.at (columns store.now) column n }
{
    let i = base(column) + n;
    store[i]
}

// The same word, as a number to count and to index with.
pub fn number(store: &StoreWords, column: usize, n: usize) -> usize
    requires column_lt_column_count { column < column_count }
    requires n_bound { n < column_size column }
    ensures { result ≡ Rattle.layout.specs.Columns.at (columns store.now) column n }
{
    at(store, column, n) as usize
}

// The words of a column from `a` up to `e`, which is not among them.
pub fn words(store: &StoreWords, column: usize, a: usize, e: usize) -> &[u32]
    requires column_lt_column_count { column < column_count }
    requires a_le_e { a ≤ e }
    requires e_bound { e ≤ column_size column }
    ensures { result.now ≡ slice (columns store.now column) a e }
{
    let from = base(column);
    &store[from + a..from + e]
}

// Writes one word of a column.
pub fn put(store: &mut StoreWords, column: usize, n: usize, v: u32)
    requires column_lt_column_count { column < column_count }
    requires n_bound { n < column_size column }
    ensures { columns store.new ≡ write (columns store.old) column n v }
{
    let i = base(column) + n;
    store[i] = v;
}

// Writes a list over the words of a column, from word `n` on.
pub fn put_all(store: &mut StoreWords, column: usize, n: usize, list: &[u32])
    requires column_lt_column_count { column < column_count }
    requires list_bound { n + length list.now ≤ column_size column }
    ensures { columns store.new ≡ write_range (columns store.old) column n list.now }
{
    let from = base(column) + n;
    copy_at(store, from, list);
}

// Writes the word `v` over `count` words of a column, from word `n` on.
pub fn put_same(store: &mut StoreWords, column: usize, n: usize, count: usize, v: u32)
    requires column_lt_column_count { column < column_count }
    requires count_bound { n + count ≤ column_size column }
    ensures { columns store.new ≡ write_range (columns store.old) column n (replicate count v) }
{
    let from = base(column) + n;
    fill_at(store, from, count, v);
}

// Copies the words of a column from `a` up to `e` over those of the column `into`, from word `to` on. Where the two lie over one another, each
// word is read before it is overwritten.
pub fn copy(store: &mut StoreWords, into: usize, to: usize, column: usize, a: usize, e: usize)
    requires into_lt_column_count { into < column_count }
    requires column_lt_column_count { column < column_count }
    requires a_le_e { a ≤ e }
    requires e_bound { e ≤ column_size column }
    requires to_bound { to + (e - a) ≤ column_size into }
    ensures { columns store.new ≡ write_range (columns store.old) into to (slice (columns store.old column) a e) }
{
    let from = base(column);
    let behind = base(into);
    store.copy_within(from + a..from + e, behind + to);
}

// Inserts a word at `a`: the words of a column from `a` up to `e` move one place on, and the word at `e` is overwritten.
pub fn insert(store: &mut StoreWords, column: usize, a: usize, e: usize, v: u32)
    requires column_lt_column_count { column < column_count }
    requires a_le_e { a ≤ e }
    requires e_bound { e < column_size column }
    ensures { columns store.new ≡ write_range (columns store.old) column a (v ∷ slice (columns store.old column) a e) }
{
    let from = base(column) + a;
    insert_at(store, from, e - a, v);
}
