// Whether two fragments are independent: the three offered calls. Each refuses a buffer that is not sound, then a fragment that does not exist. No
// type is read, so no list of renamed types is lent.
ghost use Rattle.rules.specs.declared.types.Sort.TheVariants.{Op as op, Block as block, Region as region};
ghost use Rattle.layout.specs.MarkedReading.{sound_lent};
ghost use Rattle.grouping.specs.Calls.{IndependenceAnswers};

use grouping::independence::sound_independent;
use rules::types::{Cause, Sort};
use validation::lent::sound_words;

// Of a buffer that may hold any words.
fn lent_independent(store: &[u32], sort: Sort, lhs: u32, rhs: u32) -> Result<bool, Cause>
    ensures { IndependenceAnswers (sound_lent store.now) store.now sort lhs rhs result }
{
    let Some(words) = sound_words(store) else {
        return Err(Cause::NotSound);
    };
    sound_independent(words, sort, lhs, rhs)
}

pub fn operations_independent(store: &[u32], lhs: u32, rhs: u32) -> Result<bool, Cause>
    ensures { IndependenceAnswers (sound_lent store.now) store.now op lhs rhs result }
{
    lent_independent(store, Sort::Op, lhs, rhs)
}

pub fn basic_blocks_independent(store: &[u32], lhs: u32, rhs: u32) -> Result<bool, Cause>
    ensures { IndependenceAnswers (sound_lent store.now) store.now block lhs rhs result }
{
    lent_independent(store, Sort::Block, lhs, rhs)
}

pub fn regions_independent(store: &[u32], lhs: u32, rhs: u32) -> Result<bool, Cause>
    ensures { IndependenceAnswers (sound_lent store.now) store.now region lhs rhs result }
{
    lent_independent(store, Sort::Region, lhs, rhs)
}
