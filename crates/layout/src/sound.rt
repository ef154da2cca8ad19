// The soundness check, which every offered call makes first.
ghost use Rattle.std.specs.Prelude.{◌≡◌};
ghost use Rattle.layout.specs.Soundness.{sound_buffer};

use crate::checks::laid_out;
use crate::ruled::is_ruled;

// The buffer is of the right length, laid out, and sound by document 01's rules for what it is read as.
pub fn is_sound(store: &[u32]) -> bool
    ensures { result ≡ sound_buffer store.now }
{
    let Some(words) = store.as_array() else {
        return false;
    };
    laid_out(words) && is_ruled(words)
}
