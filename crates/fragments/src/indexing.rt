// A lent list of renamed types is tested, and its index made.
ghost use Rattle.std.specs.Prelude.{◌≡◌, ◌<◌, ◌/◌, length};
ghost use Rattle.fragments.specs.Index.{index_length, Entered, Adds, Rows, EntersRows, WholeAndFew, none_renamed, Indexes};

use crate::lookup::{BUCKETS, bucket, row_of};

// How many words an index of the longest list has.
pub const INDEX_LENGTH: usize = 256;

// The words of the longest list: 64 rows.
const MOST_WORDS: usize = 128;

// Row k comes into its place, and before the other rows of its bucket.
#[tactic(auto, using(crate::proofs::Chains::bucket_low))]
fn enter(index: &mut [u32], k: usize, old: u32, present: u32)
    requires index_len { length index.old ≡ index_length }
    requires k_bound { k < 64 }
    ensures { Adds index.old k old present index.new }
{
    let b = bucket(old);
    let row = BUCKETS + 3 * k;
    index[row] = old;
    index[row + 1] = present;
    index[row + 2] = index[b];
    index[b] = k as u32 + 1;
}

// Enters all rows, or ends at one whose old type has a row already.
fn enter_rows(types: &[u32], index: &mut [u32]) -> bool
    requires whole_and_few { WholeAndFew types.now }
    requires index_len { length index.old ≡ index_length }
    requires entered { Entered index.old 0 }
    ensures { EntersRows types.now index.new result }
{
    for (k, [old, present]) in types.as_chunks::<2>().0.iter().enumerate() {
        if row_of(index, *old).is_some() {
            return false;
        }
        enter(index, k, *old, *present);
    }
    true
}

// No present type has a row.
fn none_renamed(types: &[u32], index: &[u32]) -> bool
    requires whole_and_few { WholeAndFew types.now }
    requires rows { Rows types.now index.now (length types.now / 2) }
    ensures { result ≡ none_renamed types.now }
{
    let (rows, _) = types.as_chunks::<2>();
    for [_, present] in rows {
        if row_of(index, *present).is_some() {
            return false;
        }
    }
    true
}

// Makes the index of a list, whatever the words held before, and tells how many words it has: None where the list doesn't hold, and then
// the words are of no use.
pub fn index_types(types: &[u32], index: &mut [u32]) -> Option<usize>
    requires { length index.old ≡ index_length }
    ensures { Indexes types.now index.new result }
{
    if types.len() % 2 != 0 || types.len() > MOST_WORDS {
        return None;
    }
    index[0..BUCKETS].fill(0);
    if !enter_rows(types, index) || !none_renamed(types, index) {
        return None;
    }
    Some(BUCKETS + 3 * (types.len() / 2))
}
