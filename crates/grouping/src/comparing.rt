// Two operations are compared, begun with an empty mapping, which is left empty.
ghost use Rattle.std.specs.Prelude.{◌≡◌, ◌<◌};
ghost use Rattle.rules.specs.declared.types.Sort.TheVariants.{Op as op};
ghost use Rattle.rules.specs.Laws.{equal};
ghost use Rattle.layout.specs.Columns.{columns};
ghost use Rattle.layout.specs.Reading.{op_count};
ghost use Rattle.fragments.specs.Options.{renamed_under};
ghost use Rattle.fragments.specs.View.{options_in, store_read};
ghost use Rattle.equivalence.specs.MappingWords.{empty_words};

use equivalence::comparison::ops_eq;
use equivalence::mapping::MappingWords;
use equivalence::unmapping::unmap_entered;
use equivalence::verdicts::{Pair, paired_of};
use fragments::view::StoreView;
use rules::types::Sort;

// The two operations are equal. What was entered is taken out again.
pub fn equal_ops(view: &StoreView, mapping: &mut MappingWords, pair: Pair) -> bool
    requires mapping_value { mapping.old ≡ empty_words }
    requires lhs_bound { pair.lhs < op_count (columns view.now.store.now) }
    requires rhs_bound { pair.rhs < op_count (columns view.now.store.now) }
    ensures value { result ≡ equal (renamed_under (options_in view.now) (store_read view.now)) view.now.ignore op pair.lhs pair.rhs }
    ensures mapping_after { mapping.new ≡ empty_words }
{
    let result = ops_eq(view, mapping, pair);
    unmap_entered(
        view.store,
        mapping,
        Sort::Op,
        pair.lhs as u32,
        paired_of(result),
    );
    result.is_ok()
}
