// What is searched for, and what is found.

// The starts of two equal runs.
#[derive(Clone, Copy, PartialEq, Eq, Debug)]
pub struct Starts {
    pub left: u32,
    pub right: u32,
}

// Runs of n operations of a block.
#[derive(Clone, Copy)]
pub struct Runs {
    pub block: usize,
    pub n: usize,
}

// Two such runs, by their starts.
#[derive(Clone, Copy)]
pub struct TwoRuns {
    pub runs: Runs,
    pub left: usize,
    pub right: usize,
}
