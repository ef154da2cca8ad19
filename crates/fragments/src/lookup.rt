// A type's present type, by the index of a list of renamed types.
ghost use Rattle.std.specs.Prelude.{map, ◌≡◌, ◌+◌, ◌*◌, ◌<◌, eqb, length, IfSome};
ghost use Rattle.rules.specs.Lists.{same_list};
ghost use Rattle.rules.specs.Types as types;
ghost use Rattle.fragments.specs.Index.{bucket_of, list_in, Chained, IsIndex, Finds};

// How many buckets an index has, in front of its rows.
pub const BUCKETS: usize = 64;

// The bucket of an old type: the upper six of the 32 bits of its product with the golden ratio's, which spreads numbers that stand side by
// side.
#[tactic(auto, unfolding(crate::specs::Index::bucket_of))]
pub fn bucket(t: u32) -> usize
    ensures { result ≡ bucket_of t }
{
    (t.wrapping_mul(2654435769) >> 26) as usize
}

// The row whose old type is t. A bucket names its last row, and a row the one before it, counted from 1, or 0 for none.
#[tactic(auto, using(crate::proofs::Chains::bucket_low))]
pub fn row_of(index: &[u32], t: u32) -> Option<usize>
    requires { Chained index.now }
    ensures finds { Finds index.now t result }
    ensures within { IfSome result (λ row. 66 + 3 * row < length index.now) }
{
    // A loop, since each row leads to the next: an iterator over a chain would have this loop in it, and be no plainer.
    let mut i = index[bucket(t)] as usize;
    while i > 0 {
        let row = BUCKETS + 3 * (i - 1);
        if index[row] == t {
            return Some(i - 1);
        }
        i = index[row + 2] as usize;
    }
    None
}

// The present type of t: t itself where it has no row.
pub fn present(index: &[u32], t: u32) -> u32
    requires { IsIndex index.now }
    ensures { result ≡ types.present (list_in index.now) t }
{
    if index.is_empty() {
        return t;
    }
    match row_of(index, t) {
        Some(row) => index[BUCKETS + 3 * row + 1],
        None => t,
    }
}

// Two types have one present type.
pub fn same_type(index: &[u32], a: u32, b: u32) -> bool
    requires { IsIndex index.now }
    ensures { result ≡ eqb (types.present (list_in index.now) a) (types.present (list_in index.now) b) }
{
    a == b || (!index.is_empty() && present(index, a) == present(index, b))
}

// Two lists of types have the same present types.
pub fn types_eq(index: &[u32], l: &[u32], r: &[u32]) -> bool
    requires { IsIndex index.now }
    ensures { result ≡ same_list eqb (map (types.present (list_in index.now)) l.now) (map (types.present (list_in index.now)) r.now) }
{
    l.len() == r.len() && l.iter().zip(r).all(|(x, y)| same_type(index, *x, *y))
}
