// What a comparison answers, and what it walks through.
ghost use Rattle.std.specs.Prelude.{◌≡◌};
ghost use Rattle.equivalence.specs.Walked.{left_of, right_of, neq_of, Bounded};

use crate::verdicts::Unequal;
use fragments::types::Blocks;
use rules::types::Sort;

// Two fragments of one sort.
#[derive(Clone, Copy)]
pub struct Fragments {
    pub sort: Sort,
    pub lhs: u32,
    pub rhs: u32,
}

// Two lists of blocks that are compared: those of two regions, or two blocks, each a list of one.
#[derive(Clone, Copy)]
pub enum BlockLists {
    InRegions(usize, usize),
    Single(usize, usize),
}

impl BlockLists {
    #[tactic(auto, unfolding(crate::specs::Walked::left_of))]
    pub(crate) fn left(self) -> Blocks
        ensures { result ≡ left_of self }
    {
        match self {
            BlockLists::InRegions(l, _) => Blocks::InRegion(l),
            BlockLists::Single(l, _) => Blocks::Single(l),
        }
    }

    #[tactic(auto, unfolding(crate::specs::Walked::right_of))]
    pub(crate) fn right(self) -> Blocks
        ensures { result ≡ right_of self }
    {
        match self {
            BlockLists::InRegions(_, r) => Blocks::InRegion(r),
            BlockLists::Single(_, r) => Blocks::Single(r),
        }
    }

    // One list is longer: the first unequal pair is the two regions. Two blocks alone are lists of the same length, so theirs is never
    // reached.
    #[tactic(auto, unfolding(crate::specs::Walked::Bounded, crate::specs::Walked::neq_of))]
    pub(crate) fn lengths_neq(self, paired: u32) -> Unequal
        requires { Bounded self }
        ensures { result ≡ neq_of self paired }
    {
        match self {
            BlockLists::InRegions(l, r) => Unequal::FirstNEQRegions(l as u32, r as u32, paired),
            BlockLists::Single(l, r) => Unequal::FirstNEQBlocks(l as u32, r as u32, paired),
        }
    }
}
