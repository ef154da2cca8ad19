// The uses of two operations, pair by pair: operands and successors, as `op_eq_mapped` checks them.
ghost use Rattle.std.specs.Prelude.{◌≡◌, true, ltb, length, get_or};
ghost use Prim.Native.Nat.{◌<◌};
ghost use Rattle.std.specs.List.{list_all};
ghost use Rattle.rules.specs.Lists.{all_pairs};
ghost use Rattle.rules.specs.Mapping.{or_self};
ghost use Rattle.rules.specs.Types.{renamed};
ghost use Rattle.layout.specs.Columns.{columns};
ghost use Rattle.rules.specs.Comparison.{operands_agree, successors_agree};
ghost use Rattle.layout.specs.Reading.{op_count, value_count, store_in};
ghost use Rattle.layout.specs.Soundness.{Arranged, IsSound};
ghost use Rattle.fragments.specs.Index.{list_in, IsIndex};
ghost use Rattle.fragments.specs.View.{store_read};
ghost use Rattle.equivalence.specs.MappingWords.{mapping_length, mapping_of, same_operand, same_successor, names_agree};

use crate::mapping::{BLOCK_ENTRIES, MappingWords, NO_IMAGE};
use fragments::lookup::same_type;
use fragments::view::StoreView;
use layout::columns::{StoreWords, VALUE_TYPE, at};
use layout::slices::{operands_of, successors_of};

// The image of number n, whose entry is at i, or n itself if it is not mapped.
#[tactic(auto, unfolding(rules::specs::Mapping::or_self))]
pub fn image_at(mapping: &[u32], i: usize, n: u32) -> u32
    requires { i < length mapping.now }
    ensures { result ≡ or_self (get_or mapping.now i 0) n }
{
    let image = mapping[i];
    if image == NO_IMAGE { n } else { image }
}

// If an operand is mapped, its image must match. Otherwise, it must be identical (e.g. a free/external value shared by both sides). The
// present types of both must be the same.
fn value_agrees(store: &StoreWords, index: &[u32], mapping: &MappingWords, l: u32, r: u32) -> bool
    requires arranged { Arranged store.now }
    requires index { IsIndex index.now }
    requires l_bound { l < value_count (columns store.now) }
    requires r_bound { r < value_count (columns store.now) }
    ensures { result ≡ same_operand (renamed (list_in index.now) (store_in store.now)) (mapping_of mapping.now) l r }
{
    image_at(mapping, l as usize, l) == r
        && same_type(
            index,
            at(store, VALUE_TYPE, l as usize),
            at(store, VALUE_TYPE, r as usize),
        )
}

// If a successor is mapped, its image must match. Otherwise, it must be identical (e.g. a free/external block shared by both sides).
#[tactic(auto, using(crate::proofs::Pairs::block_image), unfolding(crate::specs::MappingWords::same_successor))]
fn block_agrees(mapping: &MappingWords, l: u32, r: u32) -> bool
    requires { l < 256 }
    ensures { result ≡ same_successor (mapping_of mapping.now) l r }
{
    image_at(mapping, BLOCK_ENTRIES + l as usize, l) == r
}

// Each pair of two lists of operands agrees, up to the shorter end.
pub fn operands_agree(
    store: &StoreWords,
    index: &[u32],
    mapping: &MappingWords,
    l: &[u32],
    r: &[u32],
) -> bool
    requires arranged { Arranged store.now }
    requires index { IsIndex index.now }
    requires l_value { list_all (λ v. ltb v (value_count (columns store.now))) l.now ≡ true }
    requires r_value { list_all (λ v. ltb v (value_count (columns store.now))) r.now ≡ true }
    ensures { result ≡ all_pairs (same_operand (renamed (list_in index.now) (store_in store.now)) (mapping_of mapping.now)) l.now r.now }
{
    l.iter()
        .zip(r)
        .all(|(l, r)| value_agrees(store, index, mapping, *l, *r))
}

// Each pair of two lists of successors agrees, up to the shorter end.
pub fn successors_agree(mapping: &MappingWords, l: &[u32], r: &[u32]) -> bool
    requires { list_all (λ b. ltb b 256) l.now ≡ true }
    ensures { result ≡ all_pairs (same_successor (mapping_of mapping.now)) l.now r.now }
{
    l.iter().zip(r).all(|(l, r)| block_agrees(mapping, *l, *r))
}

// The operands and the successors of two operations agree.
pub fn names_agree(view: &StoreView, mapping: &MappingWords, lhs: usize, rhs: usize) -> bool
    requires lhs_bound { lhs < op_count (columns view.now.store.now) }
    requires rhs_bound { rhs < op_count (columns view.now.store.now) }
    ensures { result ≡ names_agree (renamed (list_in view.now.index.now) (store_read view.now)) (mapping_of mapping.now) lhs rhs }
{
    let l = operands_of(view.store, lhs);
    let r = operands_of(view.store, rhs);
    operands_agree(view.store, view.index, mapping, l, r)
        && successors_agree(
            mapping,
            successors_of(view.store, lhs),
            successors_of(view.store, rhs),
        )
}
