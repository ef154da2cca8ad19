// The twins among a store's operations: for each operation the first one before it that is independent of it and equal to it. Operations are
// chained by buckets of their hashes, and of another bucket none is even looked at.
ghost use Rattle.std.specs.Prelude.{true, ◌≡◌, ◌<◌, map, length};
ghost use Rattle.rules.specs.Grouping.{is_twin, twin_of, twins_of, twin_word};
ghost use Rattle.layout.specs.Columns.{columns};
ghost use Rattle.layout.specs.Reading.{op_count};
ghost use Rattle.fragments.specs.Index.{list_in};
ghost use Rattle.fragments.specs.Options.{renamed_under};
ghost use Rattle.fragments.specs.View.{options_in, store_read};
ghost use Rattle.equivalence.specs.MappingWords.{empty_words};
ghost use Rattle.grouping.specs.Twins.{HashesOf, Hashed};
ghost use Rattle.grouping.specs.Calls.{TwinsAnswers};

use crate::comparing::equal_ops;
use crate::hashes::operation_hashes;
use crate::independence::are_independent;
use equivalence::mapping::{MAPPING_LENGTH, MappingWords, NO_IMAGE};
use equivalence::verdicts::Pair;
use fragments::view::StoreView;
use hashing::chains::Chains;
use layout::columns::{COUNTS, OPS, number};
use rules::limits::MAX_OPS;
use rules::types::{Cause, Sort};

// The number of no operation.
pub const NO_TWIN: u32 = 4294967295;

// Operation m stands for n.
fn is_twin(view: &StoreView, mapping: &mut MappingWords, m: usize, n: usize) -> bool
    requires mapping_value { mapping.old ≡ empty_words }
    requires m_bound { m < op_count (columns view.now.store.now) }
    requires n_bound { n < op_count (columns view.now.store.now) }
    ensures value { result ≡ is_twin (renamed_under (options_in view.now) (store_read view.now)) view.now.ignore n m }
    ensures mapping_after { mapping.new ≡ empty_words }
{
    if !are_independent(view.store, Sort::Op, m, n) {
        return false;
    }
    equal_ops(view, mapping, Pair { lhs: m, rhs: n })
}

// The first operation before n that stands for it. (Each leads to the next of its bucket: no index is counted.)
fn twin_of(
    view: &StoreView,
    mapping: &mut MappingWords,
    hashes: &[u64],
    chains: &Chains,
    n: usize,
) -> Option<u32>
    requires mapping_value { mapping.old ≡ empty_words }
    requires hashed { Hashed (store_read view.now) (options_in view.now) hashes.now chains.now }
    requires n_bound { n < op_count (columns view.now.store.now) }
    ensures value { result ≡ twin_of (renamed_under (options_in view.now) (store_read view.now)) view.now.ignore n }
    ensures mapping_after { mapping.new ≡ empty_words }
{
    let hash = hashes[n];
    let mut next = chains.first_start(hash);
    while let Some(m) = next {
        if m >= n {
            return None;
        }
        if hashes[m] == hash && is_twin(view, mapping, m, n) {
            return Some(m as u32);
        }
        next = chains.next_start(m);
    }
    None
}

// Writes for each operation the number of the first that stands for it.
fn write_twins(view: &StoreView, hashes: &[u64], twins: &mut [u32])
    requires hashes { HashesOf (store_read view.now) (options_in view.now) hashes.now }
    requires twins_len { length twins.old ≡ op_count (columns view.now.store.now) }
    ensures { twins.new ≡ map twin_word (twins_of (renamed_under (options_in view.now) (store_read view.now)) view.now.ignore) }
{
    let chains = Chains::new(hashes);
    let mut mapping = [NO_IMAGE; MAPPING_LENGTH];
    for (n, word) in twins.iter_mut().enumerate() {
        let twin = twin_of(view, &mut mapping, hashes, &chains, n);
        *word = twin.unwrap_or(NO_TWIN);
    }
}

// The same in lent words, unless they are fewer than the operations. How many these are is told, and words behind stay.
pub fn find_twins(view: &StoreView, twins: &mut [u32]) -> Result<usize, Cause>
    ensures { TwinsAnswers true view.now.store.now (list_in view.now.index.now) view.now.ignore twins.old twins.new result }
{
    let count = number(view.store, COUNTS, OPS);
    if twins.len() < count {
        return Err(Cause::NoRoom);
    }
    let mut hashes = [0; MAX_OPS];
    operation_hashes(view, &mut hashes);
    write_twins(view, &hashes[..count], &mut twins[..count]);
    Ok(count)
}
