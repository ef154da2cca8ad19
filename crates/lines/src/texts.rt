// Comparison of texts.
ghost use Rattle.std.specs.Prelude.{◌≡◌, eqb};
ghost use Rattle.rules.specs.Lists.{same_list};

// Two lists of bytes are the same: the library's `==`, in the rules' words.
pub fn same_bytes(a: &[u8], b: &[u8]) -> bool
    ensures { result ≡ same_list eqb a.now b.now }
{
    a == b
}
