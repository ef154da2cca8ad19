// The product of two words modulo 2^64, from products of their halves of 32 bits and sums that wrap.
ghost use Rattle.std.specs.Prelude.{◌≡◌, ◌*◌, ◌/◌, ◌%◌, ◌^◌};

// A word's low half.
fn low(n: u64) -> u32
    ensures { result ≡ n % 2 ^ 32 }
{
    (n % 4294967296) as u32
}

// A word's high half.
fn high(n: u64) -> u32
    ensures { result ≡ n / 2 ^ 32 }
{
    (n / 4294967296) as u32
}

// The product of two halves, which fits a word.
fn half_product(a: u32, b: u32) -> u64
    ensures { result ≡ a * b }
{
    a as u64 * b as u64
}

// a * b modulo 2^64. Of the mixed products only the low half stays in the word, shifted up, and of the product of the high halves nothing.
#[tactic(auto, using(crate::proofs::Columns::by_halves))]
pub fn wrapping_mul(a: u64, b: u64) -> u64
    ensures { result ≡ (a * b) % 2 ^ 64 }
{
    let bottom = half_product(low(a), low(b));
    let mixed = half_product(low(a), high(b)).wrapping_add(half_product(high(a), low(b)));
    bottom.wrapping_add(mixed << 32)
}
