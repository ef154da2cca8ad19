// Two fragments of one sort are independent: they share no operation or block, and neither names a value or block that is defined in the other.
ghost use Rattle.std.specs.Prelude.{true, ◌≡◌};
ghost use Rattle.rules.specs.Fragments.{exists};
ghost use Rattle.rules.specs.Independence.{independent};
ghost use Rattle.layout.specs.Reading.{store_in};
ghost use Rattle.layout.specs.Soundness.{IsSound};
ghost use Rattle.grouping.specs.Calls.{IndependenceAnswers};
ghost use Rattle.grouping.specs.Reaching.{fragment_reaches};

use crate::reaching::fragment_reaches;
use equivalence::comparison::both_exist;
use fragments::inside::Fragment;
use layout::columns::StoreWords;
use rules::types::{Cause, Sort};

// The first reaches into the second.
fn reaches(store: &StoreWords, sort: Sort, x: usize, n: usize) -> bool
    requires sound { IsSound store.now }
    requires x_value { exists (store_in store.now) sort x ≡ true }
    requires n_value { exists (store_in store.now) sort n ≡ true }
    ensures { result ≡ fragment_reaches (store_in store.now) sort n x }
{
    let other = Fragment { store, sort, n };
    fragment_reaches(&other, x)
}

// Two fragments that exist are the same, or neither reaches into the other.
pub fn are_independent(store: &StoreWords, sort: Sort, a: usize, b: usize) -> bool
    requires sound { IsSound store.now }
    requires a_value { exists (store_in store.now) sort a ≡ true }
    requires b_value { exists (store_in store.now) sort b ≡ true }
    ensures { result ≡ independent (store_in store.now) sort a b }
{
    a == b || (!reaches(store, sort, a, b) && !reaches(store, sort, b, a))
}

// Whether two fragments of a sound store are independent, unless one does not exist.
pub fn sound_independent(store: &StoreWords, sort: Sort, lhs: u32, rhs: u32) -> Result<bool, Cause>
    requires { IsSound store.now }
    ensures { IndependenceAnswers true store.now sort lhs rhs result }
{
    both_exist(store, sort, lhs, rhs)?;
    Ok(are_independent(store, sort, lhs as usize, rhs as usize))
}
