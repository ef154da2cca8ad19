// What the cases lend to calls.
use equivalence::mapping::MAPPING_LENGTH;
use layout::columns::STORE_LENGTH;
use rules::types::Ignore;

// A store's buffer.
pub type Store = [u32; STORE_LENGTH];

// The entries of a mapping.
pub type Mapping = [u32; MAPPING_LENGTH];

// The ignore rule by which nothing is ignored.
pub const NOTHING: Ignore = Ignore {
    locations: false,
    bits: 0,
};
