// The calls that add an operation or a block, on a lent buffer: of these nothing is remembered, since going back cuts the tables.
ghost use Rattle.rules.specs.Building.{new_operation, new_block};
ghost use Rattle.rules.specs.Marks.{build};
ghost use Rattle.mutation.specs.Types.{operation_of, made_of};
ghost use Rattle.layout.specs.MarkedReading.{IsLent};
ghost use Rattle.undo_log.specs.MarkedCalls.{PerformsMarked};

use layout::columns::StoreWords;
use mutation::types::OpFields;
use rules::types::Cause;

#[tactic(auto, using(crate::proofs::Lent::lent_facts))]
pub fn new_operation(
    store: &mut StoreWords,
    fields: OpFields,
    types: &[u32],
    operands: &[u32],
    successors: &[u32],
) -> Result<u32, Cause>
    requires { IsLent store.old }
    ensures { PerformsMarked store.old store.new (build (new_operation (operation_of fields types.now operands.now successors.now))) (made_of result) }
{
    mutation::operations::new_operation(store, fields, types, operands, successors)
}

#[tactic(auto, using(crate::proofs::Lent::lent_facts))]
pub fn new_block(
    store: &mut StoreWords,
    region: u32,
    location: u32,
    types: &[u32],
) -> Result<u32, Cause>
    requires { IsLent store.old }
    ensures { PerformsMarked store.old store.new (build (new_block (record {
      region = region;
      location = location;
      types = types.now;
    }))) (made_of result) }
{
    mutation::blocks::new_block(store, region, location, types)
}
