// Starts whose sums fall into one bucket, chained in rising order, so that a search goes past those alone.
ghost use Rattle.std.specs.Prelude.{◌≡◌, ℕ, suc, ◌<◌, ◌≤◌, List, length, slice_index};
ghost use Rattle.rules.specs.Store.{max_ops};
ghost use Rattle.hashing.specs.Chains.{bucket_of, Follows, Chained};

use rules::limits::MAX_OPS;

// A bucket has the sums of one upper 9 bits: so many of them.
const BUCKET_WIDTH: u64 = 1 << 55;

// The bucket of a sum.
pub fn bucket(sum: u64) -> usize
    ensures value { result ≡ bucket_of sum }
    ensures upper_bound { result < max_ops }
{
    (sum / BUCKET_WIDTH) as usize
}

// For each bucket its first start, and for each start the next one of its bucket.
#[derive(Drop)]
pub struct Chains {
    first: [Option<u16>; MAX_OPS],
    next: [Option<u16>; MAX_OPS],
}

impl Chains {
    // Chains the starts of these sums, the last one first.
    pub fn new(sums: &[u64]) -> Chains
        requires { length sums.now ≤ max_ops }
        ensures { Chained sums.now result }
    {
        let mut first = [None; MAX_OPS];
        let mut next = [None; MAX_OPS];
        for i in (0..sums.len()).rev() {
            let own = bucket(sums[i]);
            next[i] = first[own];
            first[own] = Some(i as u16);
        }
        Chains { first, next }
    }

    // The first start of a sum's bucket.
    pub fn first_start(&self, sum: u64) -> Option<usize>
        ensures { (sums : List ℕ) → Chained sums self.now → Follows sums (bucket_of sum) 0 result }
    {
        self.first[bucket(sum)].map(usize::from)
    }

    // The next start of a start's bucket.
    pub fn next_start(&self, i: usize) -> Option<usize>
        requires { i < max_ops }
        ensures { (sums : List ℕ) → Chained sums self.now → i < length sums → Follows sums (bucket_of (slice_index sums i)) (suc i) result }
    {
        self.next[i].map(usize::from)
    }
}
