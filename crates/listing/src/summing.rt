// A `q` of `sums`: both hashes are computed before anything is printed, since the right one may be refused. No type is renamed: no words of
// the store are lent as the index of a list.
ghost use Rattle.std.specs.Prelude.{Some, List};
ghost use Rattle.rules.specs.Listings.{sums_program, line_does};
ghost use Rattle.layout.specs.Soundness.{IsSound};
ghost use Rattle.lines.specs.Parsing.{query_of};
ghost use Rattle.lines.specs.Writing.{HasRoom};
ghost use Rattle.listing.specs.declared.places.Place.{Place};
ghost use Rattle.listing.specs.Progress.{progress_of};
ghost use Rattle.listing.specs.Asking.{Stepped, step_room};

use fragments::view::StoreView;
use hashing::hashes::fragment_hash;
use layout::columns::StoreWords;
use lines::parsing::Query;
use lines::printing::put_hashes;
use lines::writing::LineWriter;
use rules::types::Cause;

// Its line is printed. No operation is counted, whatever the tally is.
pub fn sums_does(store: &StoreWords, out: &mut LineWriter, query: Query) -> Result<(), Cause>
    requires sound { IsSound store.now }
    requires step_room_in_bounds { HasRoom step_room out.old }
    ensures { (tally : List Place) → Stepped (line_does sums_program (progress_of store.now tally) (Some (query_of query))) store.now tally out.old out.new result }
{
    let view = StoreView {
        store,
        index: &store[..0],
        ignore: query.ignore,
    };
    let left = fragment_hash(&view, query.sort, query.left)?;
    let right = fragment_hash(&view, query.sort, query.right)?;
    put_hashes(out, left, right);
    Ok(())
}
