// The call that adds a block.
ghost use Rattle.std.specs.Prelude.{◌≡◌, ℕ, ◌+◌, ◌<◌, ◌≤◌, length};
ghost use Rattle.rules.specs.Building.{tests, first_failed, new_block};
ghost use Rattle.layout.specs.Columns.{buffer_length, columns};
ghost use Rattle.layout.specs.Reading.{block_count, value_count, store_in};
ghost use Rattle.layout.specs.Soundness.{IsSound};
ghost use Rattle.rules.specs.Causes.{cause_of};
ghost use Rattle.mutation.specs.AddedWrites.{block_written, block_placed, with_block};
ghost use Rattle.mutation.specs.Types.{made_of};
ghost use Rattle.mutation.specs.Doing.{Performs};

use crate::writes::{place_child, put_row, put_values};
use layout::columns::{BLOCK_REGION, BLOCKS, COUNTS, StoreWords, VALUES, at, number, put};
use layout::existing::region_exists;
use layout::families::BLOCKS_IN_REGIONS;
use rules::limits::{MAX_BLOCKS, MAX_OWN_VALUES, MAX_VALUES};
use rules::types::Cause;

// The cause for which the call is refused, if there is one. It does not depend on the location.
fn block_cause(store: &StoreWords, region: u32, types: &[u32]) -> Result<(), Cause>
    requires { IsSound store.now }
    ensures { (location : ℕ) → cause_of result ≡ first_failed (tests (store_in store.now) (new_block (record {
      region = region;
      location = location;
      types = types.now;
    }))) }
{
    if !region_exists(store, region) {
        return Err(Cause::NotThere);
    }
    if types.len() > MAX_OWN_VALUES {
        return Err(Cause::OwnerFull);
    }
    if number(store, COUNTS, BLOCKS) >= MAX_BLOCKS
        || number(store, COUNTS, VALUES) + types.len() > MAX_VALUES
    {
        return Err(Cause::StoreFull);
    }
    Ok(())
}

// Writes the row of a new block, m: its arguments are the next `arguments` values of the store, and it has no operations or attributes yet.
#[tactic(auto, unfolding(layout::specs::Reading::value_count, crate::specs::AddedWrites::block_written))]
fn put_block_row(store: &mut StoreWords, m: usize, region: u32, location: u32, arguments: usize)
    requires m_bound { m < 256 }
    requires arguments_bound { value_count (columns store.old) + arguments ≤ 2048 }
    ensures { columns store.new ≡ block_written (columns store.old) m region location arguments }
{
    let from = number(store, COUNTS, VALUES);
    let end = from + arguments;
    let row = [region, location, from as u32, end as u32, 0, 0, 0];
    put_row(store, BLOCK_REGION, m, &row);
}

// Block m goes to the end of its region's range, and the one before it is linked to it.
fn place_block(store: &mut StoreWords, region: u32, m: usize)
    requires region_bound { region < 256 }
    requires m_bound { m < 256 }
    ensures { columns store.new ≡ block_placed (columns store.old) region m }
{
    place_child(store, BLOCKS_IN_REGIONS, region as usize, m);
}

// Writes all of a new block: its row, its number into its region's range, its arguments, and the count of blocks.
#[tactic(auto, unfolding(layout::specs::Reading::block_count, layout::specs::Reading::value_count))]
pub fn put_block(store: &mut StoreWords, region: u32, location: u32, types: &[u32])
    requires region_bound { region < 256 }
    requires store_bound { block_count (columns store.old) + 1 ≤ 256 }
    requires types_bound { value_count (columns store.old) + length types.now ≤ 2048 }
    ensures { columns store.new ≡ with_block (columns store.old) (record {
      region = region;
      location = location;
      types = types.now;
    }) }
{
    let m = number(store, COUNTS, BLOCKS);
    put_block_row(store, m, region, location, types.len());
    place_block(store, region, m);
    put_values(store, (2 * m + 1) as u32, types);
    put(store, COUNTS, BLOCKS, (m + 1) as u32);
}

// The call, on a sound buffer.
pub fn new_block(
    store: &mut StoreWords,
    region: u32,
    location: u32,
    types: &[u32],
) -> Result<u32, Cause>
    requires { IsSound store.old }
    ensures { Performs store.old store.new (new_block (record {
      region = region;
      location = location;
      types = types.now;
    })) (made_of result) }
{
    block_cause(store, region, types)?;
    let m = at(store, COUNTS, BLOCKS);
    put_block(store, region, location, types);
    Ok(m)
}
