// A `q` of `twins`: its fragments are compared, begun with an empty mapping, which is left empty.
ghost use Rattle.std.specs.Prelude.{Some, ◌≡◌};
ghost use Rattle.rules.specs.Listings.{twins_program, line_does};
ghost use Rattle.layout.specs.Soundness.{IsSound};
ghost use Rattle.equivalence.specs.MappingWords.{empty_words};
ghost use Rattle.equivalence.specs.Compares.{answer_of};
ghost use Rattle.lines.specs.Parsing.{query_of};
ghost use Rattle.lines.specs.Writing.{HasRoom, Writes};
ghost use Rattle.listing.specs.Progress.{progress_of};
ghost use Rattle.listing.specs.Asking.{verdict_line, QueryCompared, Stepped, step_room};

use crate::inside::include_fragment;
use crate::places::Tally;
use equivalence::comparison::fragments_eq;
use equivalence::mapping::MappingWords;
use equivalence::types::Fragments;
use equivalence::unmapping::unmap_entered;
use equivalence::verdicts::{EqResult, Unequal, paired_of};
use fragments::view::StoreView;
use layout::columns::StoreWords;
use lines::parsing::Query;
use lines::printing::{put_equal, put_unequal};
use lines::writing::LineWriter;
use rules::types::{Cause, Sort};

// Compares the fragments of a query. No type is renamed: no words of the store are lent as the index of a list. The mapping is empty before,
// and what was entered is taken out again.
fn compare(store: &StoreWords, mapping: &mut MappingWords, query: Query) -> Result<EqResult, Cause>
    requires sound { IsSound store.now }
    requires mapping_value { mapping.old ≡ empty_words }
    ensures { QueryCompared store.now mapping.new query result }
{
    let sort = query.sort;
    let view = StoreView {
        store,
        index: &store[..0],
        ignore: query.ignore,
    };
    let of = Fragments {
        sort,
        lhs: query.left,
        rhs: query.right,
    };
    let result = fragments_eq(&view, mapping, of)?;
    unmap_entered(store, mapping, sort, query.left, paired_of(result));
    Ok(result)
}

// The line of a comparison.
#[tactic(auto, using(lines::proofs::Joined::within), unfolding(crate::specs::Asking::verdict_line, equivalence::specs::Compares::answer_of))]
fn put_verdict(out: &mut LineWriter, res: EqResult)
    requires { HasRoom step_room out.old }
    ensures { Writes step_room (verdict_line (answer_of res)) out.old out.new }
{
    match res {
        Ok(paired) => put_equal(out, paired),
        Err(Unequal::FirstNEQOps(l, r, paired)) => put_unequal(out, Sort::Op, l, r, paired),
        Err(Unequal::FirstNEQRegions(l, r, paired)) => put_unequal(out, Sort::Region, l, r, paired),
        Err(Unequal::FirstNEQBlocks(l, r, paired)) => put_unequal(out, Sort::Block, l, r, paired),
    }
}

// A `q` of `twins`: its line is printed, and the operations inside its right fragment are counted.
pub fn twins_does(
    store: &StoreWords,
    mapping: &mut MappingWords,
    tally: &mut Tally,
    out: &mut LineWriter,
    query: Query,
) -> Result<(), Cause>
    requires sound { IsSound store.now }
    requires mapping_value { mapping.old ≡ empty_words }
    requires step_room_in_bounds { HasRoom step_room out.old }
    ensures stepped { Stepped (line_does twins_program (progress_of store.now tally.old) (Some (query_of query))) store.now tally.new out.old out.new result }
    ensures mapping_after { mapping.new ≡ empty_words }
{
    let result = compare(store, mapping, query)?;
    put_verdict(out, result);
    include_fragment(store, tally, query.sort, query.right, result.is_ok());
    Ok(())
}
