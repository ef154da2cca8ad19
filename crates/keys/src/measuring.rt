// How large a fragment of a sound store is, which need not exist.
ghost use Rattle.std.specs.Prelude.{true, ◌≡◌};
ghost use Rattle.rules.specs.Extents.{sized};
ghost use Rattle.layout.specs.Reading.{store_in};
ghost use Rattle.layout.specs.Soundness.{IsSound};
ghost use Rattle.keys.specs.Extents.{sized_of};

use crate::keys::fragment_extent;
use crate::types::Extent;
use fragments::sorts::exists;
use layout::columns::StoreWords;
use rules::types::{Cause, Ignore, Sort};

// The extent of a fragment of a sound store, unless it does not exist.
pub fn sound_extent(store: &StoreWords, sort: Sort, n: u32, ignore: Ignore) -> Result<Extent, Cause>
    requires { IsSound store.now }
    ensures { sized_of result ≡ sized true (store_in store.now) ignore sort n }
{
    if !exists(store, sort, n) {
        return Err(Cause::NotThere);
    }
    Ok(fragment_extent(store, sort, n as usize, ignore))
}
