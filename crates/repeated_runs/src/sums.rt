// The sums of the windows of a block. Each operation is hashed once, the first window is summed from the hashes, and each next one is kept from
// the one before it.
ghost use Rattle.std.specs.Prelude.{◌≡◌, ◌+◌, ◌-◌, ◌%◌, ◌^◌, ◌<◌, ◌≤◌, true, length, nat_lt};
ghost use Rattle.std.specs.List.{list_all};
ghost use Rattle.rules.specs.Hash.{fnv_prime};
ghost use Rattle.rules.specs.Runs.{max_run, run_of, weighted};
ghost use Rattle.layout.specs.Columns.{columns};
ghost use Rattle.layout.specs.Reading.{op_count};
ghost use Rattle.fragments.specs.View.{options_in, store_read};
ghost use Rattle.repeated_runs.specs.Powers.{IsPowers};
ghost use Rattle.repeated_runs.specs.Windows.{HashesOf, WeightsOf, SumsOf};
ghost use Rattle.rules.specs.Store.{max_ops};

use crate::powers::POWERS;
use crate::shells::shell_hash;
use fragments::view::StoreView;
use hashing::product::wrapping_mul;
use rules::limits::MAX_OPS;

// FNV's prime: what a hash is multiplied by as its window goes on by one.
const PRIME: u64 = 1099511628211;

// Writes the shell hash of each operation to the begin of `hashes`.
fn shell_hashes(view: &StoreView, ops: &[u32], hashes: &mut [u64])
    requires ops_value { list_all (λ k. nat_lt k (op_count (columns view.now.store.now))) ops.now ≡ true }
    requires ops_in_bounds { length ops.now ≤ length hashes.old }
    ensures { HashesOf (store_read view.now) (options_in view.now) ops.now hashes.new }
{
    for (k, n) in ops.iter().enumerate() {
        hashes[k] = shell_hash(view, *n as usize);
    }
}

// The sum of one window: each hash times the power that belongs to its distance from the window's end.
fn window_sum(hashes: &[u64], powers: &[u64]) -> u64
    requires hashes_len_bound { length hashes.now ≤ max_run }
    requires powers { IsPowers powers.now }
    ensures { result ≡ weighted hashes.now }
{
    let mut sum: u64 = 0;
    for (i, hash) in hashes.iter().enumerate() {
        let distance = hashes.len() - i - 1;
        sum = sum.wrapping_add(wrapping_mul(*hash, powers[distance]));
    }
    sum
}

// The sum of the window from i + 1 on, by that of the window from i on: the hash that leaves is taken out, all others are one further from the
// end, and one enters.
fn next_sum(hashes: &[u64], power: u64, n: usize, i: usize, sum: u64) -> u64
    requires le_n { 1 ≤ n }
    requires n_in_bounds { i + n < length hashes.now }
    requires power_value { power ≡ fnv_prime ^ (n - 1) % 2 ^ 64 }
    requires sum_value { sum ≡ weighted (run_of hashes.now n i) }
    ensures { result ≡ weighted (run_of hashes.now n (i + 1)) }
{
    let end = i + n;
    let entering = hashes[end];
    let word = hashes[i];
    let leaving = wrapping_mul(word, power);
    let kept = wrapping_mul(sum.wrapping_sub(leaving), PRIME);
    kept.wrapping_add(entering)
}

// The sum of each window of n of these hashes, by its start: the first one is summed, and each next one kept from the one before it.
fn sum_windows(hashes: &[u64], powers: &[u64], n: usize, sums: &mut [u64])
    requires powers { IsPowers powers.now }
    requires le_n { 1 ≤ n }
    requires n_le_max_run { n ≤ max_run }
    requires n_in_bounds { n ≤ length hashes.now }
    requires hashes_in_bounds { length hashes.now ≤ length sums.old }
    ensures { WeightsOf hashes.now sums.new n }
{
    let power = powers[n - 1];
    let last = hashes.len() - n;
    let mut sum = window_sum(&hashes[..n], powers);
    sums[0] = sum;
    for i in 0..last {
        sum = next_sum(hashes, power, n, i, sum);
        sums[i + 1] = sum;
    }
}

// The sum of each window of n of these operations, by its start.
pub fn window_sums(view: &StoreView, ops: &[u32], n: usize, sums: &mut [u64])
    requires ops_value { list_all (λ k. nat_lt k (op_count (columns view.now.store.now))) ops.now ≡ true }
    requires le_n { 1 ≤ n }
    requires n_le_max_run { n ≤ max_run }
    requires n_in_bounds { n ≤ length ops.now }
    requires ops_len_bound { length ops.now ≤ max_ops }
    requires sums_in_bounds { length ops.now ≤ length sums.old }
    ensures sums_of { SumsOf (store_read view.now) (options_in view.now) ops.now sums.new n }
    ensures sums_len { length sums.new ≡ length sums.old }
{
    let powers = POWERS;
    let mut hashes = [0; MAX_OPS];
    shell_hashes(view, ops, &mut hashes);
    sum_windows(&hashes[..ops.len()], &powers, n, sums);
}
