// The copy is written, owner by owner in the order of the walk: a new row with what the original's row has, but for names and the place.
ghost use Rattle.std.specs.Prelude.{◌≡◌, ◌≢◌, ℕ, [], ◌+◌, ◌-◌, ◌<◌, ◌≤◌, true, length, take, map, ltb, get_or, None};
ghost use Rattle.std.specs.List.{list_all};
ghost use Rattle.rules.specs.Store.{parent_exists, owner_exists, attributes_hold, attribute_total, regions_of, max_attributes};
ghost use Rattle.rules.specs.Building.{attributes_of, first_failed};
ghost use Rattle.rules.specs.Mapping.{image, or_self};
ghost use Rattle.rules.specs.Copying.{copy_tests, copy_mapping};
ghost use Rattle.layout.specs.Columns.{columns, column_count, column_size, buffer_length, slot_count, value_type};
ghost use Rattle.layout.specs.Reading.{op_count, block_count, region_count, store_in, attribute_at, slice};
ghost use Rattle.layout.specs.Soundness.{Arranged, IsSound};
ghost use Rattle.equivalence.specs.MappingWords.{mapping_length, mapping_of};
ghost use Rattle.copying.specs.Steps.{AreSteps};
ghost use Rattle.copying.specs.Written.{ReadsAs, attributed, region_by, parent_by, OpReady, op_made, BlockReady, block_made, StepReady, step_made};
ghost use Rattle.copying.specs.Cloned.{Written};

use crate::steps::Step;
use equivalence::mapping::{BLOCK_ENTRIES, MappingWords, OP_ENTRIES};
use equivalence::names::image_at;
use layout::columns::{
    BLOCK_ARGUMENT_END, BLOCK_ARGUMENT_FIRST, BLOCK_LOCATION, BLOCK_REGION, BLOCKS, COUNTS,
    OP_KIND, OP_LOCATION, OP_PARENT, OP_REGION_END, OP_REGION_FIRST, OP_RESULT_END,
    OP_RESULT_FIRST, OPS, REGION_OP, SLOT_CONTENT, SLOT_KEY, SLOT_KIND, StoreWords, VALUE_TYPE, at,
    number, words,
};
use layout::kinds::{inherent_from, kind_from};
use layout::owners::{first_slot, key_count};
use layout::slices::{operands_of, successors_of};
use mutation::attributes::put_added;
use mutation::blocks::put_block;
use mutation::operations::put_operation;
use mutation::types::OpFields;
use rules::types::{Attribute, Owner};

// The types of a row's values, which are those in the range that these two columns tell of, in a lent list.
fn types_of<'a>(
    store: &StoreWords,
    first: usize,
    end: usize,
    i: usize,
    into: &'a mut [u32],
) -> &'a [u32]
    requires columns_bound { (first < column_count) × (end < column_count) }
    requires i_bound { (i < column_size first) × (i < column_size end) }
    requires rises { Rattle.layout.specs.Columns.at (columns store.now) first i ≤ Rattle.layout.specs.Columns.at (columns store.now) end i }
    requires fits { Rattle.layout.specs.Columns.at (columns store.now) end i ≤ 2048 }
    requires room { Rattle.layout.specs.Columns.at (columns store.now) end i - Rattle.layout.specs.Columns.at (columns store.now) first i ≤ length into.old }
    ensures { result.now ≡ slice (columns store.now value_type) (Rattle.layout.specs.Columns.at (columns store.now) first i) (Rattle.layout.specs.Columns.at (columns store.now) end i) }
{
    let types = words(
        store,
        VALUE_TYPE,
        number(store, first, i),
        number(store, end, i),
    );
    into[..types.len()].copy_from_slice(types);
    &into[..types.len()]
}

// The images of names, whose entries begin with word `base` of the mapping, in a lent list.
fn images_of<'a>(
    mapping: &MappingWords,
    base: usize,
    names: &[u32],
    into: &'a mut [u32],
) -> &'a [u32]
    requires base_bound { base ≤ 4096 }
    requires names_bound { (k : ℕ) → k < length names.now → base + get_or names.now k 0 < length mapping.now }
    requires room { length names.now ≤ length into.old }
    ensures { result.now ≡ map (λ (v : ℕ). or_self (get_or mapping.now (base + v) 0) v) names.now }
{
    for (i, name) in names.iter().enumerate() {
        into[i] = image_at(mapping, base + *name as usize, *name);
    }
    &into[..names.len()]
}

// The attribute at a slot.
fn attribute_at(store: &StoreWords, slot: usize) -> Attribute
    requires { slot < slot_count }
    ensures { result ≡ attribute_at (columns store.now) slot }
{
    let word = at(store, SLOT_KIND, slot);
    Attribute {
        key: at(store, SLOT_KEY, slot),
        kind: kind_from(word),
        content: at(store, SLOT_CONTENT, slot),
        inherent: inherent_from(word),
    }
}

// The attributes of one owner become those of another one, which has none yet.
fn copy_attributes(store: &mut StoreWords, from: Owner, to: Owner)
    requires arranged { Arranged store.old }
    requires from_exists { owner_exists (store_in store.old) from ≡ true }
    requires to_exists { owner_exists (store_in store.old) to ≡ true }
    requires apart { from ≡ to → ⊥ }
    requires empty { attributes_of (store_in store.old) to ≡ [] }
    requires held { attributes_hold (attributes_of (store_in store.old) from) ≡ true }
    requires room { attribute_total (store_in store.old) + length (attributes_of (store_in store.old) from) ≤ max_attributes }
    ensures { ReadsAs store.old store.new (attributed (store_in store.old) to (attributes_of (store_in store.old) from)) }
{
    let count = key_count(store, from);
    for i in 0..count {
        let attribute = attribute_at(store, first_slot(from) + i);
        put_added(store, to, first_slot(to) + i, attribute);
    }
}

// The copy of operation m, under this parent.
fn copy_op(store: &mut StoreWords, mapping: &MappingWords, m: usize, parent: Option<u32>)
    requires arranged { Arranged store.old }
    requires m_bound { m < op_count (columns store.old) }
    requires parent_value { parent_exists (store_in store.old) parent ≡ true }
    requires ready { OpReady (store_in store.old) m }
    ensures { ReadsAs store.old store.new (op_made (store_in store.old) (mapping_of mapping.now) parent m) }
{
    let copy = at(store, COUNTS, OPS);
    let mut types = [0; 16];
    let mut operands = [0; 16];
    let mut successors = [0; 8];
    let results = types_of(store, OP_RESULT_FIRST, OP_RESULT_END, m, &mut types);
    let uses = images_of(mapping, 0, operands_of(store, m), &mut operands);
    let targets = images_of(
        mapping,
        BLOCK_ENTRIES,
        successors_of(store, m),
        &mut successors,
    );
    let fields = OpFields {
        kind: at(store, OP_KIND, m),
        parent,
        location: at(store, OP_LOCATION, m),
        regions: at(store, OP_REGION_END, m) - at(store, OP_REGION_FIRST, m),
    };
    put_operation(store, fields, results, uses, targets);
    copy_attributes(store, Owner::Op(m as u32), Owner::Op(copy));
}

// The parent of the copy of operation m: of the copy itself it is the named one, of another the copy of its block.
fn parent_copy(
    store: &StoreWords,
    mapping: &MappingWords,
    n: usize,
    parent: Option<u32>,
    m: usize,
) -> Option<u32>
    requires arranged { Arranged store.now }
    requires m_bound { m < op_count (columns store.now) }
    ensures { result ≡ parent_by (store_in store.now) (mapping_of mapping.now) n parent m }
{
    if m == n {
        return parent;
    }
    let b = at(store, OP_PARENT, m).checked_sub(1)?;
    Some(image_at(mapping, BLOCK_ENTRIES + b as usize, b))
}

// The copy of region r: as far behind the first region of its operation's copy as r is behind the first region of its operation.
fn region_copy(store: &StoreWords, mapping: &MappingWords, r: u32) -> u32
    requires arranged { Arranged store.now }
    requires r_bound { r < region_count (columns store.now) }
    requires copy_bound { image (mapping_of mapping.now).ops (get_or (store_in store.now).regions r 0) < op_count (columns store.now) }
    requires some { 0 < length (regions_of (store_in store.now) (image (mapping_of mapping.now).ops (get_or (store_in store.now).regions r 0))) }
    ensures { result ≡ region_by (store_in store.now) (mapping_of mapping.now) r }
{
    let m = at(store, REGION_OP, r as usize);
    let copy = image_at(mapping, OP_ENTRIES + m as usize, m);
    at(store, OP_REGION_FIRST, copy as usize) + (r - at(store, OP_REGION_FIRST, m as usize))
}

// The copy of block b.
fn copy_block(store: &mut StoreWords, mapping: &MappingWords, b: usize)
    requires arranged { Arranged store.old }
    requires b_bound { b < block_count (columns store.old) }
    requires ready { BlockReady (store_in store.old) (mapping_of mapping.now) b }
    ensures { ReadsAs store.old store.new (block_made (store_in store.old) (mapping_of mapping.now) b) }
{
    let copy = at(store, COUNTS, BLOCKS);
    let mut types = [0; 16];
    let arguments = types_of(
        store,
        BLOCK_ARGUMENT_FIRST,
        BLOCK_ARGUMENT_END,
        b,
        &mut types,
    );
    let region = region_copy(store, mapping, at(store, BLOCK_REGION, b));
    let location = at(store, BLOCK_LOCATION, b);
    put_block(store, region, location, arguments);
    copy_attributes(store, Owner::Block(b as u32), Owner::Block(copy));
}

// The copies of what a step defines, if it is a shell.
fn copy_step(
    store: &mut StoreWords,
    mapping: &MappingWords,
    n: usize,
    parent: Option<u32>,
    step: Step,
)
    requires arranged { Arranged store.old }
    requires ready { StepReady (store_in store.old) (mapping_of mapping.now) n parent step }
    ensures { ReadsAs store.old store.new (step_made (store_in store.old) (mapping_of mapping.now) n parent step) }
{
    match step {
        Step::OpShell(m) => {
            let under = parent_copy(store, mapping, n, parent, m as usize);
            copy_op(store, mapping, m as usize, under);
        }
        Step::BlockShell(b) => copy_block(store, mapping, b as usize),
        Step::Names(_) => {}
    }
}

// All of the copy, once every test has passed.
pub fn write_copies(
    store: &mut StoreWords,
    mapping: &MappingWords,
    n: usize,
    parent: Option<u32>,
    steps: &[Step],
)
    requires sound { IsSound store.old }
    requires n_bound { n < op_count (columns store.old) }
    requires passed { first_failed (copy_tests (store_in store.old) n parent) ≡ None }
    requires are_steps { AreSteps store.old n steps.now }
    requires mapped { mapping_of mapping.now ≡ copy_mapping (store_in store.old) n }
    ensures { Written store.old store.new n parent mapping.now }
{
    for step in steps {
        copy_step(store, mapping, n, parent, *step);
    }
}
