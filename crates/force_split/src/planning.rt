//! What a split forces.

ghost use Rattle.std.specs.Prelude.{◌≡◌, ℕ, ◌+◌, ◌*◌, ◌/◌, ◌<◌, ◌≤◌, ◌++◌, ◌∷◌, List, length, slice_index, true, false};
ghost use Rattle.std.specs.Prelude.{IsNone, IfSome};
ghost use Rattle.arrayvec.specs.ArrayVec.{array_vec_len};
ghost use Rattle.mesh_defs.specs.Triangle.{level_of};
ghost use Rattle.mesh_defs.specs.ClosedSet.{among};
ghost use Rattle.mesh_defs.specs.GridSet.{IsAscending, IsForced};
ghost use Rattle.mesh_laws.specs.Edge.{mate_of};
ghost use Rattle.triangle_pool.specs.Answer.{numbers};
ghost use Rattle.mesh_laws.specs.Slots.{address_at, split_set, HasLeaf, IsMateLive, diamond_size};
ghost use Rattle.force_split.specs.Chain.{IsChain, IsGainOf, chain_size};

use arrayvec::ArrayVec;
use bintree_addr::Slot;
use triangle_pool::Pool;

/// A leaf and what must be split before it, the finest first, and how many triangles the whole split adds.
#[derive(Debug, Drop)]
pub struct Chain {
    pub slots: ArrayVec<Slot, 30>,
    pub gain: u32,
}

/// The leaf across the base, if it is coarser.
fn coarser(pool: &Pool, s: Slot) -> Option<Slot>
    requires leaf { HasLeaf pool.now.pairs s.0 }
    ensures none { IsNone result → IsMateLive pool.now.pairs (address_at pool.now.pairs s.0) }
    ensures some { IfSome result (λ t. (1 ≤ mate_of (address_at pool.now.pairs s.0))
        × (address_at pool.now.pairs t.0 ≡ mate_of (address_at pool.now.pairs s.0) / 2)) }
    ensures leaf { IfSome result (λ t. HasLeaf pool.now.pairs t.0) }
    ensures level { IfSome result
        (λ t. level_of (address_at pool.now.pairs t.0) < level_of (address_at pool.now.pairs s.0)) }
{
    let base = pool.base(s)?;
    if pool.tri(base).level() < pool.tri(s).level() {
        Some(base)
    } else {
        None
    }
}

/// How many triangles the diamond of the triangle has.
fn size(pool: &Pool, s: Slot) -> u32
    requires leaf { HasLeaf pool.now.pairs s.0 }
    ensures { result ≡ diamond_size (address_at pool.now.pairs s.0) }
{
    if pool.base(s).is_some() { 2 } else { 1 }
}

/// Adds the slot and its chain, which has at most one slot a level, and answers the chain's size.
fn extend(pool: &Pool, s: Slot, levels: u32, slots: &mut ArrayVec<Slot, 30>) -> u32
    requires leaf { HasLeaf pool.now.pairs s.0 }
    requires level { level_of (address_at pool.now.pairs s.0) ≤ levels }
    requires fits { array_vec_len slots.old + levels < 30 }
    ensures chain { (rest : List ℕ) × (numbers slots.new.items ≡ numbers slots.old.items ++ (s.0 ∷ rest))
        × IsChain pool.now.pairs (s.0 ∷ rest) × (result ≡ chain_size pool.now.pairs (s.0 ∷ rest)) }
    ensures small { result ≤ 2 * levels + 2 }
    ensures count { array_vec_len slots.new ≤ array_vec_len slots.old + levels + 1 }
{
    slots.push(s);
    let own = size(pool, s);
    match coarser(pool, s) {
        None => own,
        Some(next) => own + extend(pool, next, levels - 1, slots),
    }
}

/// The chain of a leaf.
pub fn plan(pool: &Pool, s: Slot) -> Chain
    requires leaf { HasLeaf pool.now.pairs s.0 }
    requires coarse { level_of (address_at pool.now.pairs s.0) < 2 * pool.now.n }
    ensures first { slice_index (numbers result.slots.items) 0 ≡ s.0 }
    ensures some { 1 ≤ length result.slots.items }
    ensures chain { IsChain pool.now.pairs (numbers result.slots.items) }
    ensures size { result.gain ≡ chain_size pool.now.pairs (numbers result.slots.items) }
    ensures gain { IsGainOf pool.now.n pool.now.pairs (address_at pool.now.pairs s.0) result.gain }
    ensures members { (members after : List ℕ) → IsAscending members →
        ((a : ℕ) → among members a ≡ split_set pool.now.pairs a) →
        IsForced pool.now.n members (address_at pool.now.pairs s.0) after →
        length after ≡ length members + result.gain }
    ensures count { length result.slots.items ≤ 2 * pool.now.n }
{
    let levels = pool.tri(s).level();
    let mut slots = ArrayVec::new();
    let gain = extend(pool, s, levels, &mut slots);
    Chain { slots, gain }
}
