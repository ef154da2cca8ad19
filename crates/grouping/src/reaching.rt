// Whether a fragment reaches into another: an operation or block that it defines is inside the other, or a value or block that it names is. It
// is walked through until something reaches; `left` is how many regions, one in another, may still be entered, and falls. What is inside the
// other is told by going up, so that nothing has to be marked first.
ghost use Rattle.std.specs.Prelude.{true, ◌≡◌, ◌<◌};
ghost use Rattle.rules.specs.Fragments.{exists};
ghost use Rattle.layout.specs.Columns.{columns};
ghost use Rattle.layout.specs.Reading.{op_count, block_count, region_count, value_count, store_in};
ghost use Rattle.grouping.specs.Reaching.{names_inside, op_reaches, block_reaches, region_reaches, fragment_reaches};

use fragments::inside::Fragment;
use fragments::order::BlocksIn;
use fragments::types::Blocks;
use layout::columns::{OP_REGION_END, OP_REGION_FIRST, number};
use layout::ops_in::OpsIn;
use layout::slices::{operands_of, successors_of};
use rules::types::Sort;

// A walk enters at most 33 regions, one in another.
const LEVELS: u32 = 33;

// An operand or successor of operation m is inside.
fn names_inside(other: &Fragment, m: usize) -> bool
    requires { m < op_count (columns other.now.store.now) }
    ensures { result ≡ names_inside (store_in other.now.store.now) other.now.sort other.now.n m }
{
    let operands = operands_of(other.store, m);
    let successors = successors_of(other.store, m);
    operands.iter().any(|v| other.value_inside(*v as usize))
        || successors.iter().any(|b| other.block_inside(*b as usize))
}

// A block, or something in it.
#[cycle(reaches)]
fn block_reaches(other: &Fragment, b: usize, left: u32) -> bool
    requires { b < block_count (columns other.now.store.now) }
    ensures { result ≡ block_reaches (store_in other.now.store.now) other.now.sort other.now.n left b }
{
    if other.block_inside(b) {
        return true;
    }
    for m in OpsIn::new(other.store, b) {
        if op_reaches(other, m, left) {
            return true;
        }
    }
    false
}

// Something in a region.
#[cycle(reaches)]
fn region_reaches(other: &Fragment, r: usize, left: u32) -> bool
    requires { r < region_count (columns other.now.store.now) }
    ensures { result ≡ region_reaches (store_in other.now.store.now) other.now.sort other.now.n left r }
{
    if left == 0 {
        return false;
    }
    for b in BlocksIn::new(other.store, Blocks::InRegion(r)) {
        if block_reaches(other, b, left - 1) {
            return true;
        }
    }
    false
}

// An operation, or something in its regions.
#[cycle(reaches)]
fn op_reaches(other: &Fragment, m: usize, left: u32) -> bool
    requires { m < op_count (columns other.now.store.now) }
    ensures { result ≡ op_reaches (store_in other.now.store.now) other.now.sort other.now.n left m }
{
    if other.op_inside(m) || names_inside(other, m) {
        return true;
    }
    let first = number(other.store, OP_REGION_FIRST, m);
    let end = number(other.store, OP_REGION_END, m);
    for r in first..end {
        if region_reaches(other, r, left) {
            return true;
        }
    }
    false
}

// The fragment x reaches into the other, which is of the same sort.
pub fn fragment_reaches(other: &Fragment, x: usize) -> bool
    requires { exists (store_in other.now.store.now) other.now.sort x ≡ true }
    ensures { result ≡ fragment_reaches (store_in other.now.store.now) other.now.sort other.now.n x }
{
    match other.sort {
        Sort::Op => op_reaches(other, x, LEVELS),
        Sort::Block => block_reaches(other, x, LEVELS),
        Sort::Region => region_reaches(other, x, LEVELS),
    }
}
