// Refusals of comparisons that lend a mapping. Nothing of a refused mapping changes.
use crate::lent::{Mapping, NOTHING, Store};
use api::equality::{basic_block_eq, operation_eq, region_eq};
use equivalence::mapping::{BLOCK_ENTRIES, MAPPING_LENGTH, NO_IMAGE, OP_ENTRIES};
use equivalence::verdicts::EqResult;
use layout::columns::OPS;
use rules::types::{Cause, Sort};

// The comparison of a fragment with itself.
fn compare(
    store: &[u32],
    types: &[u32],
    mapping: &mut [u32],
    sort: Sort,
    n: u32,
) -> Result<EqResult, Cause> {
    match sort {
        Sort::Op => operation_eq(store, types, mapping, n, n, NOTHING),
        Sort::Region => region_eq(store, types, mapping, n, n, NOTHING),
        Sort::Block => basic_block_eq(store, types, mapping, n, n, NOTHING),
    }
}

// It is refused, and the mapping stays as it is lent.
fn refuses<const N: usize>(
    store: &[u32],
    types: &[u32],
    lent: [u32; N],
    sort: Sort,
    n: u32,
    cause: Cause,
) -> bool {
    let mut mapping = lent;
    compare(store, types, &mut mapping, sort, n) == Err(cause) && mapping == lent
}

// The same of each of the three comparisons.
fn all_refuse<const N: usize>(
    store: &[u32],
    types: &[u32],
    lent: [u32; N],
    n: u32,
    cause: Cause,
) -> bool {
    refuses(store, types, lent, Sort::Op, n, cause)
        && refuses(store, types, lent, Sort::Region, n, cause)
        && refuses(store, types, lent, Sort::Block, n, cause)
}

// An entry too few, and one too many.
pub fn lengths(store: &Store) -> bool {
    all_refuse(store, &[], [NO_IMAGE; 2815], 0, Cause::BadMapping)
        && all_refuse(store, &[], [NO_IMAGE; 2817], 0, Cause::BadMapping)
}

// A mapping with this one entry is refused.
fn not_allowed(store: &Store, entry: usize, image: u32) -> bool {
    let mut mapping: Mapping = [NO_IMAGE; MAPPING_LENGTH];
    if entry < MAPPING_LENGTH {
        mapping[entry] = image;
    }
    all_refuse(store, &[], mapping, 0, Cause::BadMapping)
}

// An entry of a value, block or operation that is not there.
pub fn left_numbers(store: &Store) -> bool {
    not_allowed(store, 4, 0)
        && not_allowed(store, BLOCK_ENTRIES + 1, 0)
        && not_allowed(store, OP_ENTRIES + 3, 0)
        && not_allowed(store, MAPPING_LENGTH - 1, 0)
}

// An image that is not there.
pub fn images(store: &Store) -> bool {
    not_allowed(store, 0, 4)
        && not_allowed(store, 0, NO_IMAGE - 1)
        && not_allowed(store, BLOCK_ENTRIES, 1)
        && not_allowed(store, OP_ENTRIES, 3)
}

// The last value, block and operation, each as an image of the last.
pub fn allowed(store: &Store) -> bool {
    let mut mapping: Mapping = [NO_IMAGE; MAPPING_LENGTH];
    mapping[3] = 3;
    mapping[BLOCK_ENTRIES] = 0;
    mapping[OP_ENTRIES + 2] = 2;
    operation_eq(store, &[], &mut mapping, 1, 1, NOTHING) == Ok(Ok(1))
}

// A list of renamed types that is refused.
fn list_refused(store: &Store, types: &[u32]) -> bool {
    all_refuse(store, types, [NO_IMAGE; MAPPING_LENGTH], 9, Cause::BadTypes)
}

// A half row, an old type twice, a chain, a swap, a type that becomes itself, and a list that is too long.
pub fn lists(store: &Store) -> bool {
    list_refused(store, &[1, 2, 3])
        && list_refused(store, &[1, 2, 1, 2])
        && list_refused(store, &[1, 2, 2, 3])
        && list_refused(store, &[2, 3, 1, 2])
        && list_refused(store, &[1, 2, 2, 1])
        && list_refused(store, &[NO_IMAGE, NO_IMAGE])
        && list_refused(store, &[0; 130])
}

// A store that is not sound comes before the mapping, the mapping before the list of renamed types, and the list before a fragment that is
// not there.
pub fn first_cause(store: &Store) -> bool {
    let half = [1];
    let empty = [NO_IMAGE; MAPPING_LENGTH];
    let mut mapping = empty;
    mapping[0] = 4;
    let mut counted = *store;
    counted[OPS] = 513;
    all_refuse(store, &[1, 2], empty, 9, Cause::NotThere)
        && all_refuse(store, &half, mapping, 9, Cause::BadMapping)
        && all_refuse(&counted, &half, mapping, 9, Cause::NotSound)
}
