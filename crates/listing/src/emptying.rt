// Emptying buffers of the right lengths, whatever they hold.
ghost use Rattle.std.specs.Prelude.{◌≡◌, length};
ghost use Rattle.rules.specs.Store.{empty_store};
ghost use Rattle.layout.specs.Columns.{buffer_length};
ghost use Rattle.layout.specs.Reading.{store_in};
ghost use Rattle.equivalence.specs.MappingWords.{mapping_length, empty_words};
ghost use Rattle.listing.specs.Stepping.{Bare};

use equivalence::mapping::{MappingWords, NO_IMAGE};
use layout::columns::{COUNTS, StoreWords, put_same};

// A store is empty when its counts are 0, the number of set marks among them: no other word is read then, and so they stay as they are.
pub fn empty_store(store: &mut StoreWords)
    ensures bare { Bare store.new }
    ensures store_after { store_in store.new ≡ empty_store }
{
    put_same(store, COUNTS, 0, 8, 0);
}

pub fn empty_mapping(mapping: &mut MappingWords)
    ensures { mapping.new ≡ empty_words }
{
    mapping.fill(NO_IMAGE);
}
