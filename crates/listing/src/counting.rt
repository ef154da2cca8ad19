// Counting by a tally: where each operation is.
ghost use Rattle.std.specs.Prelude.{◌≡◌, ◌<◌};
ghost use Rattle.listing.specs.Tally.{is_equal, is_inside, place_after, included, Counted};
ghost use Rattle.rules.specs.Store.{max_ops};

use crate::places::{Counts, Place, Tally};

impl Place {
    // Inside a right fragment that was found equal.
    #[tactic(auto, unfolding(crate::specs::Tally::is_equal))]
    fn is_equal(&self) -> bool
        ensures { result ≡ is_equal self.now }
    {
        matches!(self, Place::InsideEqual)
    }

    // Inside a right fragment.
    #[tactic(auto, unfolding(crate::specs::Tally::is_inside))]
    fn is_inside(&self) -> bool
        ensures { result ≡ is_inside self.now }
    {
        !matches!(self, Place::Outside)
    }

    // Where an operation is once it was found inside a right fragment, found equal or not. One that was inside an equal one before still counts
    // as such.
    fn after(self, found: bool) -> Place
        ensures { result ≡ place_after found self }
    {
        match self {
            Place::InsideEqual => Place::InsideEqual,
            _ if found => Place::InsideEqual,
            _ => Place::Inside,
        }
    }
}

// Operation n is inside a right fragment, found equal or not.
pub fn include(tally: &mut Tally, n: usize, found: bool)
    requires { n < max_ops }
    ensures { tally.new ≡ included found n tally.old }
{
    tally[n] = tally[n].after(found);
}

// The two counts, in one pass.
pub fn counts(tally: &Tally) -> Counts
    ensures { Counted tally.now result }
{
    let mut equal = 0;
    let mut all = 0;
    for place in tally {
        if place.is_equal() {
            equal += 1;
        }
        if place.is_inside() {
            all += 1;
        }
    }
    Counts { equal, all }
}
