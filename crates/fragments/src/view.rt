// A store as a call sees it.
ghost use Rattle.fragments.specs.Options.{Readable, readable_prop};

use layout::columns::StoreWords;
use rules::types::Ignore;

/// A store as a call sees it all the way: the sound words that it reads, the index of the types that are renamed, and what it ignores.
#[derive(Clone, Copy)]
pub struct StoreView<'a> {
    pub store: &'a StoreWords,
    pub index: &'a [u32],
    pub ignore: Ignore,
    pub ghost readable: { Readable store.now index.now } by { readable_prop store.now index.now },
}
