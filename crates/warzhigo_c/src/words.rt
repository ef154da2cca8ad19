// A lent slice as the array that it is known to be. C lends words with their number; what is behind the interface takes arrays.
ghost use Rattle.std.specs.Prelude.{◌≡◌, length};
ghost use Rattle.std.specs.Borrow.{sem, Lends, Array, u32};

pub fn array<const N: usize>(words: &[u32]) -> &[u32; N]
    requires { length words.now ≡ N }
    ensures { result.now ≡ words.now }
{
    words.as_array().unwrap()
}

pub fn array_mut<const N: usize>(words: &mut [u32]) -> &mut [u32; N]
    requires { length words.old ≡ N }
    ensures* writes_back { sem 𝓛 (Lends (Array u32 0) (Array u32 0) words.entry result (λ ws. ws)) }
    ensures value { result.now ≡ words.old }
{
    words.as_mut_array().unwrap()
}
