// Buffers that are stores, and buffers that are none.
use crate::building_cases::refusals::unsound;
use crate::lent::Store;
use layout::columns::{BLOCKS, OPS, STORE_LENGTH};
use validation::lent::is_sound;

// A word too few, and a word too many.
const SHORT: usize = STORE_LENGTH - 1;

const LONG: usize = STORE_LENGTH + 1;

// An empty store is sound, and a buffer that is a word too short or too long is not.
pub fn empty_stores() -> bool {
    let store: Store = [0; STORE_LENGTH];
    let short = [0; SHORT];
    let long = [0; LONG];
    is_sound(&store) && !is_sound(&short) && !is_sound(&long)
}

// Cause 1 for a buffer that is too short, for a count above its total, and for a block without a region.
pub fn unsound_stores() -> bool {
    let mut short = [0; SHORT];
    let short_kept = short;
    let mut counted: Store = [0; STORE_LENGTH];
    counted[OPS] = 513;
    let counted_kept = counted;
    let mut stray: Store = [0; STORE_LENGTH];
    stray[BLOCKS] = 1;
    let stray_kept = stray;
    unsound(&mut short, &short_kept)
        && unsound(&mut counted, &counted_kept)
        && unsound(&mut stray, &stray_kept)
}
