// What crosses to another language: an enum can't, so an answer is a struct of numbers, and a parent or an owner a bool and a number.
ghost use Rattle.std.specs.Prelude.{◌≡◌};
ghost use Rattle.mutation.specs.Types.{made_of, done_of};
ghost use Rattle.equivalence.specs.Compares.{compared_of};
ghost use Rattle.hashing.specs.Calls.{hashed_of};
ghost use Rattle.keys.specs.Calls.{keyed_of};
ghost use Rattle.keys.specs.Extents.{sized_of};
ghost use Rattle.repeated_runs.specs.Calls.{found_of};
ghost use Rattle.grouping.specs.Calls.{independence_of, grouped_of};
ghost use Rattle.listing.specs.Calls.{listing_answer_of};
ghost use Rattle.warzhigo_c.specs.Codes.{entries_mean, verdict_means, sum_means, key_answer_means, extent_answer_means, run_means, independence_means, grouped_means, outcome_means, output_means, converted_told, parent_from, owner_from};

use converting::types::NoRoom;
use equivalence::verdicts::{EqResult, Unequal};
use keys::types::Extent;
use listing::types::Unprinted;
use repeated_runs::types::Starts;
use rules::types::{Cause, Owner};

// The codes of a verdict: equal, the first unequal operations, blocks or regions, and a refusal.
const EQ: u32 = 0;

const NEQ_OPS: u32 = 1;

const NEQ_BLOCKS: u32 = 2;

const NEQ_REGIONS: u32 = 3;

const NO_VERDICT: u32 = 4;

// The codes of independence: no, yes, and a refusal.
const DEPENDENT: u32 = 0;

const INDEPENDENT: u32 = 1;

const NO_ANSWER: u32 = 2;

// The codes of an outcome: a new number, accepted, and a refusal.
const MADE: u32 = 0;

const ACCEPTED: u32 = 1;

const REFUSED: u32 = 2;

// Unequal things are `left` and `right`. The cause of a refusal is `left`.
#[repr(C)]
#[derive(Clone, Copy)]
pub struct Verdict {
    pub code: u32,
    pub left: u32,
    pub right: u32,
    pub paired: u32,
}

// Code 0 is a hash, `word`. 1 is a refusal, and its cause is `cause`.
#[repr(C)]
#[derive(Clone, Copy)]
pub struct HashAnswer {
    pub word: u64,
    pub code: u32,
    pub cause: u32,
}

// Code 0 is a key of so many bytes, `length`. 1 is a refusal, and its cause is `cause`.
#[repr(C)]
#[derive(Clone, Copy)]
pub struct KeyAnswer {
    pub length: u32,
    pub code: u32,
    pub cause: u32,
}

// Code 0 is how large a key will be: its length, `bytes`, what its fragment defines, and how deep it is nested. 1 is a refusal, and its cause
// is `cause`.
#[repr(C)]
#[derive(Clone, Copy)]
pub struct ExtentAnswer {
    pub bytes: u32,
    pub values: u32,
    pub blocks: u32,
    pub operations: u32,
    pub nesting: u32,
    pub code: u32,
    pub cause: u32,
}

// Code 0 is two equal runs, from `left` and from `right` on. 1 is none. 2 is a refusal, and its cause is `left`.
#[repr(C)]
#[derive(Clone, Copy)]
pub struct RunAnswer {
    pub code: u32,
    pub left: u32,
    pub right: u32,
}

// Code 0 is no, 1 is yes. 2 is a refusal, and its cause is `cause`.
#[repr(C)]
#[derive(Clone, Copy)]
pub struct Independence {
    pub code: u32,
    pub cause: u32,
}

// Code 0 is a word for each of so many `operations`. 1 is a refusal, and its cause is `cause`.
#[repr(C)]
#[derive(Clone, Copy)]
pub struct Grouped {
    pub operations: usize,
    pub code: u32,
    pub cause: u32,
}

// Code 0 is a new number, `number`. 1 is accepted. 2 is a refusal, and its cause is `number`.
#[repr(C)]
#[derive(Clone, Copy)]
pub struct Outcome {
    pub code: u32,
    pub number: u32,
}

// Code 0 is printed, so many `bytes`. 1 is a refusal, and its cause is `cause`. 2 is too little room.
#[repr(C)]
#[derive(Clone, Copy)]
pub struct Output {
    pub bytes: usize,
    pub code: u32,
    pub cause: u32,
}

// Where entries are: words `value` up to `end` of the mapping, which are of values, and `owner` up to `past`, of blocks and operations. Where
// the first number is not the smaller one, there are none.
#[repr(C)]
#[derive(Clone, Copy)]
pub struct Entries {
    pub value: u32,
    pub end: u32,
    pub owner: u32,
    pub past: u32,
}

#[tactic(auto, unfolding(crate::specs::Codes::entries_mean))]
pub fn of_entries(e: equivalence::entries::Entries) -> Entries
    ensures { entries_mean result ≡ e }
{
    Entries {
        value: e.value,
        end: e.end,
        owner: e.owner,
        past: e.past,
    }
}

#[tactic(auto, using(crate::proofs::CauseNumbers::cause_back), unfolding(crate::specs::Codes::verdict_means, equivalence::specs::Compares::compared_of, equivalence::specs::Compares::answer_of))]
pub fn of_verdict(q: Result<EqResult, Cause>) -> Verdict
    ensures { verdict_means result ≡ compared_of q }
{
    match q {
        Ok(Ok(n)) => Verdict {
            code: EQ,
            left: 0,
            right: 0,
            paired: n,
        },
        Ok(Err(Unequal::FirstNEQOps(l, r, n))) => Verdict {
            code: NEQ_OPS,
            left: l,
            right: r,
            paired: n,
        },
        Ok(Err(Unequal::FirstNEQBlocks(l, r, n))) => Verdict {
            code: NEQ_BLOCKS,
            left: l,
            right: r,
            paired: n,
        },
        Ok(Err(Unequal::FirstNEQRegions(l, r, n))) => Verdict {
            code: NEQ_REGIONS,
            left: l,
            right: r,
            paired: n,
        },
        Err(cause) => Verdict {
            code: NO_VERDICT,
            left: cause.number(),
            right: 0,
            paired: 0,
        },
    }
}

#[tactic(auto, using(crate::proofs::CauseNumbers::cause_back), unfolding(crate::specs::Codes::sum_means, hashing::specs::Calls::hashed_of))]
pub fn of_hash(h: Result<u64, Cause>) -> HashAnswer
    ensures { sum_means result ≡ hashed_of h }
{
    match h {
        Ok(word) => HashAnswer {
            word,
            code: 0,
            cause: 0,
        },
        Err(cause) => HashAnswer {
            word: 0,
            code: 1,
            cause: cause.number(),
        },
    }
}

#[tactic(auto, using(crate::proofs::CauseNumbers::cause_back), unfolding(crate::specs::Codes::key_answer_means, keys::specs::Calls::keyed_of))]
pub fn of_key(k: Result<u32, Cause>) -> KeyAnswer
    ensures { key_answer_means result ≡ keyed_of k }
{
    match k {
        Ok(length) => KeyAnswer {
            length,
            code: 0,
            cause: 0,
        },
        Err(cause) => KeyAnswer {
            length: 0,
            code: 1,
            cause: cause.number(),
        },
    }
}

#[tactic(auto, using(crate::proofs::CauseNumbers::cause_back), unfolding(crate::specs::Codes::extent_answer_means, keys::specs::Extents::sized_of, keys::specs::Extents::extent_means))]
pub fn of_extent(q: Result<Extent, Cause>) -> ExtentAnswer
    ensures { extent_answer_means result ≡ sized_of q }
{
    match q {
        Ok(e) => ExtentAnswer {
            bytes: e.bytes,
            values: e.values,
            blocks: e.blocks,
            operations: e.operations,
            nesting: e.nesting,
            code: 0,
            cause: 0,
        },
        Err(cause) => ExtentAnswer {
            bytes: 0,
            values: 0,
            blocks: 0,
            operations: 0,
            nesting: 0,
            code: 1,
            cause: cause.number(),
        },
    }
}

#[tactic(auto, using(crate::proofs::CauseNumbers::cause_back), unfolding(crate::specs::Codes::run_means, repeated_runs::specs::Calls::found_of))]
pub fn of_run(r: Result<Option<Starts>, Cause>) -> RunAnswer
    ensures { run_means result ≡ found_of r }
{
    match r {
        Ok(Some(two)) => RunAnswer {
            code: 0,
            left: two.left,
            right: two.right,
        },
        Ok(None) => RunAnswer {
            code: 1,
            left: 0,
            right: 0,
        },
        Err(cause) => RunAnswer {
            code: 2,
            left: cause.number(),
            right: 0,
        },
    }
}

#[tactic(auto, using(crate::proofs::CauseNumbers::cause_back), unfolding(crate::specs::Codes::independence_means, grouping::specs::Calls::independence_of))]
pub fn of_independence(r: Result<bool, Cause>) -> Independence
    ensures { independence_means result ≡ independence_of r }
{
    match r {
        Ok(false) => Independence {
            code: DEPENDENT,
            cause: 0,
        },
        Ok(true) => Independence {
            code: INDEPENDENT,
            cause: 0,
        },
        Err(cause) => Independence {
            code: NO_ANSWER,
            cause: cause.number(),
        },
    }
}

#[tactic(auto, using(crate::proofs::CauseNumbers::cause_back), unfolding(crate::specs::Codes::grouped_means, grouping::specs::Calls::grouped_of))]
pub fn of_grouped(g: Result<usize, Cause>) -> Grouped
    ensures { grouped_means result ≡ grouped_of g }
{
    match g {
        Ok(operations) => Grouped {
            operations,
            code: 0,
            cause: 0,
        },
        Err(cause) => Grouped {
            operations: 0,
            code: 1,
            cause: cause.number(),
        },
    }
}

// A call that makes something.
#[tactic(auto, using(crate::proofs::CauseNumbers::cause_back), unfolding(crate::specs::Codes::outcome_means, mutation::specs::Types::made_of))]
pub fn of_made(b: Result<u32, Cause>) -> Outcome
    ensures { outcome_means result ≡ made_of b }
{
    match b {
        Ok(number) => Outcome { code: MADE, number },
        Err(cause) => Outcome {
            code: REFUSED,
            number: cause.number(),
        },
    }
}

// A call that makes nothing.
#[tactic(auto, using(crate::proofs::CauseNumbers::cause_back), unfolding(crate::specs::Codes::outcome_means, mutation::specs::Types::done_of))]
pub fn of_done(b: Result<(), Cause>) -> Outcome
    ensures { outcome_means result ≡ done_of b }
{
    match b {
        Ok(()) => Outcome {
            code: ACCEPTED,
            number: 0,
        },
        Err(cause) => Outcome {
            code: REFUSED,
            number: cause.number(),
        },
    }
}

#[tactic(auto, using(crate::proofs::CauseNumbers::cause_back), unfolding(crate::specs::Codes::output_means, listing::specs::Calls::listing_answer_of))]
pub fn of_listed(l: Result<usize, Unprinted>) -> Output
    ensures { output_means result ≡ listing_answer_of l }
{
    match l {
        Ok(bytes) => Output {
            bytes,
            code: 0,
            cause: 0,
        },
        Err(Unprinted::Refused(cause)) => Output {
            bytes: 0,
            code: 1,
            cause: cause.number(),
        },
        Err(Unprinted::NoRoom) => Output {
            bytes: 0,
            code: 2,
            cause: 0,
        },
    }
}

#[tactic(auto, using(crate::proofs::CauseNumbers::cause_back), unfolding(crate::specs::Codes::output_means, crate::specs::Codes::converted_told))]
pub fn of_converted(c: Result<usize, NoRoom>) -> Output
    ensures { output_means result ≡ converted_told c }
{
    match c {
        Ok(bytes) => Output {
            bytes,
            code: 0,
            cause: 0,
        },
        Err(NoRoom) => Output {
            bytes: 0,
            code: 2,
            cause: 0,
        },
    }
}

#[tactic(auto, unfolding(crate::specs::Codes::parent_from))]
pub fn parent(placed: bool, block: u32) -> Option<u32>
    ensures { result ≡ parent_from placed block }
{
    placed.then_some(block)
}

#[tactic(auto, unfolding(crate::specs::Codes::owner_from))]
pub fn owner(blocks: bool, n: u32) -> Owner
    ensures { result ≡ owner_from blocks n }
{
    if blocks {
        Owner::Block(n)
    } else {
        Owner::Op(n)
    }
}
