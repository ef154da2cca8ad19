// The limits of a store and of what is lent beside it, by the names that the rules have for them.

/// The most operations of a store.
pub const MAX_OPS: usize = 512;

/// The most blocks of a store.
pub const MAX_BLOCKS: usize = 256;

/// The most regions of a store.
pub const MAX_REGIONS: usize = 256;

/// The most values of a store.
pub const MAX_VALUES: usize = 2048;

/// The most operands that the operations of a store have together.
pub const MAX_OPERANDS: usize = 2048;

/// The most successors that the operations of a store have together.
pub const MAX_SUCCESSORS: usize = 512;

/// The most attributes that the operations and blocks of a store have together.
pub const MAX_ATTRIBUTES: usize = 1024;

/// The most results of an operation, or arguments of a block.
pub const MAX_OWN_VALUES: usize = 16;

/// The most operands of an operation.
pub const MAX_OWN_OPERANDS: usize = 16;

/// The most regions of an operation.
pub const MAX_OWN_REGIONS: u32 = 8;

/// The most successors of an operation.
pub const MAX_OWN_SUCCESSORS: usize = 8;

/// The most attributes of an operation or a block.
pub const MAX_OWN_KEYS: usize = 8;

/// The highest attribute kind.
pub const MAX_ATTRIBUTE_KIND: u32 = 63;

/// The most regions around an operation.
pub const MAX_NESTING: usize = 32;

/// The highest number of a mark, and the most that are set.
pub const MAX_MARKS: u32 = 8;

/// The most replacements that are remembered.
pub const MAX_REMEMBERED: usize = 1024;

/// The most operations of a run.
pub const MAX_RUN: u32 = 256;

/// The most bytes of a line of a listing.
pub const MAX_LINE: usize = 512;

/// The most bytes of a listing.
pub const MAX_LISTING: usize = 65536;
