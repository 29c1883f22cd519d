//! Forced splits, the coarsest first.

ghost use Rattle.std.specs.Prelude.{◌≡◌, ℕ, ◌+◌, ◌*◌, ◌/◌, ◌<◌, ◌≤◌, ◌⊎◌, ◌++◌, ◌∷◌, List, length, slice_index, true};
ghost use Rattle.std.specs.Prelude.{false};
ghost use Rattle.mesh_defs.specs.declared.counters.TheConstants.{MOST_CHANGES};
ghost use Rattle.arrayvec.specs.ArrayVec.{array_vec_len};
ghost use Rattle.mesh_defs.specs.Triangle.{level_of};
ghost use Rattle.mesh_defs.specs.ClosedSet.{IsLeastClosed};
ghost use Rattle.mesh_defs.specs.Greedy.{with_triangle};
ghost use Rattle.mesh_laws.specs.Edge.{mate_of};
ghost use Rattle.mesh_laws.specs.Slots.{address_at, has_children, IsLive, IsPool, split_set, room_of, diamond_size};
ghost use Rattle.triangle_pool.specs.Answer.{numbers};
ghost use Rattle.force_split.specs.Chain.{IsChain, IsChained, IsBornOf, AreAnswers, chain_size};

use crate::planning::Chain;
use arrayvec::ArrayVec;
use bintree_addr::Slot;
use triangle_pool::{Born, Pool};

/// Splits the slots of a chain, the last one first.
fn split_all(pool: &mut Pool, slots: &[Slot], answers: &mut ArrayVec<Born, 30>)
    requires valid { IsPool pool.old.n pool.old.pairs }
    requires chain { IsChain pool.old.pairs (numbers slots.now) }
    requires coarse { 1 ≤ length slots.now →
        level_of (address_at pool.old.pairs (slice_index (numbers slots.now) 0)) < 2 * pool.old.n }
    requires room { chain_size pool.old.pairs (numbers slots.now) ≤ room_of pool.old.pairs }
    requires count { pool.old.splits + chain_size pool.old.pairs (numbers slots.now) < MOST_CHANGES }
    requires fits { array_vec_len answers.old + length slots.now ≤ 30 }
    ensures n { pool.new.n ≡ pool.old.n }
    ensures most { pool.new.most ≡ pool.old.most }
    ensures merges { pool.new.merges ≡ pool.old.merges }
    ensures splits { pool.new.splits ≡ pool.old.splits + chain_size pool.old.pairs (numbers slots.now) }
    ensures room { room_of pool.new.pairs + chain_size pool.old.pairs (numbers slots.now) ≡ room_of pool.old.pairs }
    ensures chained { IsChained pool.old.n pool.old.pairs (numbers slots.now) (split_set pool.new.pairs) }
    ensures last { length slots.now ≡ 0 → pool.new.pairs ≡ pool.old.pairs }
    ensures kept { (r : ℕ) → IsLive pool.old.pairs r → address_at pool.new.pairs r ≡ address_at pool.old.pairs r }
    ensures live { (r : ℕ) → IsLive pool.new.pairs r → IsLive pool.old.pairs r ⊎ IsBornOf answers.new.items r }
    ensures more { (r : ℕ) → IsBornOf answers.old.items r → IsBornOf answers.new.items r }
    ensures each { array_vec_len answers.new ≡ array_vec_len answers.old + length slots.now }
    ensures valid { IsPool pool.new.n pool.new.pairs }
    ensures answers { (more : List Born) × (answers.new.items ≡ answers.old.items ++ more)
        × AreAnswers pool.old.pairs pool.new.pairs (numbers slots.now) more }
{
    let Some((first, rest)) = slots.split_first() else {
        return;
    };
    split_all(pool, rest, answers);
    let born = pool.split(*first);
    answers.push(born);
}

/// Splits a leaf with what that forces, as planned.
pub fn carry_out(pool: &mut Pool, chain: &Chain) -> ArrayVec<Born, 30>
    requires some { 1 ≤ length chain.now.slots.items }
    requires chain { IsChain pool.old.pairs (numbers chain.now.slots.items) }
    requires size { chain.now.gain ≡ chain_size pool.old.pairs (numbers chain.now.slots.items) }
    requires coarse { level_of
        (address_at pool.old.pairs (slice_index (numbers chain.now.slots.items) 0)) < 2 * pool.old.n }
    requires room { chain.now.gain ≤ room_of pool.old.pairs }
    requires count { pool.old.splits + (4 * pool.old.n + 4) < MOST_CHANGES }
    ensures n { pool.new.n ≡ pool.old.n }
    ensures most { pool.new.most ≡ pool.old.most }
    ensures merges { pool.new.merges ≡ pool.old.merges }
    ensures splits { pool.new.splits ≡ pool.old.splits + chain.now.gain }
    ensures room { room_of pool.new.pairs + chain.now.gain ≡ room_of pool.old.pairs }
    ensures set { IsLeastClosed pool.old.n
        (with_triangle (split_set pool.old.pairs)
        (address_at pool.old.pairs (slice_index (numbers chain.now.slots.items) 0))) (split_set pool.new.pairs) }
    ensures kept { (r : ℕ) → IsLive pool.old.pairs r → address_at pool.new.pairs r ≡ address_at pool.old.pairs r }
    ensures live { (r : ℕ) → IsLive pool.new.pairs r → IsLive pool.old.pairs r ⊎ IsBornOf result.items r }
    ensures each { length result.items ≡ length chain.now.slots.items }
    ensures valid { IsPool pool.new.n pool.new.pairs }
    ensures answers { AreAnswers pool.old.pairs pool.new.pairs (numbers chain.now.slots.items) result.items }
{
    let _leaves = pool.leaf_count();
    let mut answers = ArrayVec::new();
    split_all(pool, &chain.slots, &mut answers);
    answers
}
