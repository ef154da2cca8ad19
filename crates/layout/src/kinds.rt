// The word that an attribute's kind and its flag share: the kind, and 64 more where the attribute is inherent. No kind is over 63.
ghost use Rattle.std.specs.Prelude.{◌≡◌, ◌≤◌};
ghost use Rattle.rules.specs.Store.{max_attribute_kind};
ghost use Rattle.layout.specs.Reading.{kind_code, kind_from, inherent_from};

// The word of a kind and a flag.
pub fn kind_code(kind: u32, inherent: bool) -> u32
    requires { kind ≤ max_attribute_kind }
    ensures { result ≡ kind_code kind inherent }
{
    if inherent {
        return kind + 64;
    }
    kind
}

// The kind in a word.
pub fn kind_from(word: u32) -> u32
    ensures { result ≡ kind_from word }
{
    if word >= 64 {
        return word - 64;
    }
    word
}

// The flag in a word.
pub fn inherent_from(word: u32) -> bool
    ensures { result ≡ inherent_from word }
{
    word >= 64
}
