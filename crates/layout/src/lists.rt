// Tests of lists of words, and writing into one. Each but `copy_at` is a line over the library's, under a promise in the rules' words that
// callers cite.
ghost use Rattle.std.specs.Prelude.{◌≡◌, ◌∷◌, ◌+◌, ◌<◌, ◌≤◌, eqb, ltb, length, replicate, take, drop};
ghost use Rattle.layout.specs.Columns.{pasted};
ghost use Rattle.std.specs.List.{list_all};

// Each entry is w.
pub fn all_are(list: &[u32], w: u32) -> bool
    ensures { result ≡ list_all (λ x. eqb x w) list.now }
{
    list.iter().all(|x| *x == w)
}

// Each entry is below n.
pub fn all_below(list: &[u32], n: u32) -> bool
    ensures { result ≡ list_all (λ x. ltb x n) list.now }
{
    list.iter().all(|x| *x < n)
}

// Writes a list over the words of another, from `from` on. (A loop: the library's `copy_from_slice` is `memmove` where the length isn't known,
// which nothing else here asks of whoever links the archive.)
pub fn copy_at(to: &mut [u32], from: usize, list: &[u32])
    requires { from + length list.now ≤ length to.old }
    ensures { to.new ≡ pasted to.old from list.now }
{
    for j in 0..list.len() {
        to[from + j] = list[j];
    }
}

// Writes the word `v` over `count` words, from `from` on.
pub fn fill_at(to: &mut [u32], from: usize, count: usize, v: u32)
    requires { from + count ≤ length to.old }
    ensures { to.new ≡ pasted to.old from (replicate count v) }
{
    to[from..from + count].fill(v);
}

// Inserts a word at `from`: the `count` words there move one place on, and the word behind them is overwritten.
pub fn insert_at(to: &mut [u32], from: usize, count: usize, v: u32)
    requires { from + count < length to.old }
    ensures { to.new ≡ pasted to.old from (v ∷ take count (drop from to.old)) }
{
    to.copy_within(from..from + count, from + 1);
    to[from] = v;
}
