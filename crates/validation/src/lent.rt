// The soundness check of a lent buffer with marks.
ghost use Rattle.std.specs.Prelude.{true, false, ◌≡◌, ◌<◌, MatchOption};
ghost use Rattle.std.specs.Borrow.{sem, LendsIf, Array, u32};
ghost use Rattle.layout.specs.Columns.{columns};
ghost use Rattle.layout.specs.Soundness.{IsSound};
ghost use Rattle.layout.specs.MarkedReading.{mark_count, marks_hold_in, sound_lent};

use crate::steps::rows_hold;
use crate::words::words_hold;
use layout::columns::{COUNTS, MARKS, STORE_LENGTH, StoreWords, at};

// The marks of a buffer whose tables are sound, of which at least one is set. The copy takes a large frame, so this must stay a call of its
// own and not become a part of `are_sound`: that it is called from elsewhere too (`marks_are_sound`) keeps it one.
fn marks_hold(store: &StoreWords) -> bool
    requires sound { IsSound store.now }
    requires nonzero { 0 < mark_count (columns store.now) }
    ensures { result ≡ marks_hold_in (columns store.now) }
{
    if !words_hold(store) {
        return false;
    }
    let mut copy = [0; STORE_LENGTH];
    copy.copy_from_slice(store);
    rows_hold(&mut copy)
}

// The marks of a buffer whose tables are known to be sound.
#[tactic(auto, unfolding(layout::specs::MarkedReading::mark_count))]
pub fn marks_are_sound(store: &StoreWords) -> bool
    requires { IsSound store.now }
    ensures { result ≡ marks_hold_in (columns store.now) }
{
    at(store, COUNTS, MARKS) == 0 || marks_hold(store)
}

// The tables are sound, and so are those of every mark. Without a mark that is one word more than the tables' check.
#[tactic(auto, unfolding(layout::specs::MarkedReading::mark_count))]
fn are_sound(store: &StoreWords) -> bool
    ensures { result ≡ sound_lent store.now }
{
    layout::sound::is_sound(store) && (at(store, COUNTS, MARKS) == 0 || marks_hold(store))
}

// The words of a buffer of the right length, if they are sound.
pub fn sound_words(store: &[u32]) -> Option<&StoreWords>
    ensures { MatchOption result (sound_lent store.now ≡ false) (λ words. (words.now ≡ store.now) × (sound_lent store.now ≡ true)) }
{
    let words = store.as_array()?;
    if !are_sound(words) {
        return None;
    }
    Some(words)
}

pub fn is_sound(store: &[u32]) -> bool
    ensures { result ≡ sound_lent store.now }
{
    sound_words(store).is_some()
}

// The words of a sound buffer, to change them.
pub fn sound_words_mut(store: &mut [u32]) -> Option<&mut StoreWords>
    ensures cases { MatchOption result (sound_lent store.old ≡ false) (λ words. (words.now ≡ store.old) × (sound_lent store.old ≡ true)) }
    ensures* writes_back { sem 𝓛 (LendsIf (Array u32 0) (Array u32 0) store.entry result (λ ws. ws) store.old) }
{
    if !is_sound(store) {
        return None;
    }
    store.as_mut_array()
}
