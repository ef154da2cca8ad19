// The offered call: it refuses a buffer that is not sound, and a mapping that is not allowed, and then copies.
ghost use Rattle.mutation.specs.Types.{made_of};
ghost use Rattle.api.specs.Copies.{CopyAnswers};

use copying::cloning;
use equivalence::mapping::is_allowed;
use rules::types::Cause;
use validation::lent::sound_words_mut;

// Operation `op` with all inside it is copied to the end of a block, or to no parent; the mapping is original to copy afterwards.
pub fn clone_operation(
    store: &mut [u32],
    op: u32,
    parent: Option<u32>,
    mapping: &mut [u32],
) -> Result<u32, Cause>
    ensures { CopyAnswers store.old store.new mapping.old mapping.new op parent (made_of result) }
{
    let words = sound_words_mut(store).ok_or(Cause::NotSound)?;
    let Some(entries) = mapping.as_mut_array() else {
        return Err(Cause::BadMapping);
    };
    if !is_allowed(words, entries) {
        return Err(Cause::BadMapping);
    }
    cloning::clone_operation(words, op, parent, entries)
}
