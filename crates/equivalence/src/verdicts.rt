// The result of a comparison, and what is compared.
ghost use Rattle.std.specs.Prelude.{◌≡◌};
ghost use Rattle.rules.specs.Entered.{paired_in};
ghost use Rattle.equivalence.specs.Compares.{answer_of};

// The first pair found to be unequal, left and right, and how many pairs of operations and blocks were mapped before.
#[derive(Clone, Copy, PartialEq, Eq, Debug)]
pub enum Unequal {
    FirstNEQOps(u32, u32, u32),
    FirstNEQRegions(u32, u32, u32),
    FirstNEQBlocks(u32, u32, u32),
}

// The result of a comparison: equal, with how many pairs of operations and blocks were mapped, or the first pair found to be unequal.
pub type EqResult = Result<u32, Unequal>;

// Two operations, blocks or regions, by their numbers.
#[derive(Clone, Copy)]
pub struct Pair {
    pub lhs: usize,
    pub rhs: usize,
}

// How many pairs an answer counts.
#[tactic(auto, unfolding(rules::specs::Entered::paired_in, crate::specs::Compares::answer_of))]
pub fn paired_of(res: EqResult) -> u32
    ensures { result ≡ paired_in (answer_of res) }
{
    match res {
        Ok(paired) => paired,
        Err(Unequal::FirstNEQOps(_, _, paired)) => paired,
        Err(Unequal::FirstNEQRegions(_, _, paired)) => paired,
        Err(Unequal::FirstNEQBlocks(_, _, paired)) => paired,
    }
}
