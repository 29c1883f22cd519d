//! A walk over what may have changed.

ghost use Rattle.std.specs.Prelude.{◌≡◌, ◌+◌, ◌*◌, ◌<◌, ◌≤◌, ◌++◌, ◌∷◌, [], true, false, cond, length, take, drop};
ghost use Rattle.std.specs.Prelude.{slice_index};
ghost use Rattle.mesh_defs.specs.Triangle.{level_of};
ghost use Rattle.mesh_defs.specs.ClosedSet.{leaves_under, leaves_of};
ghost use Rattle.mesh_laws.specs.Slots.{address_at, split_set, IsLive};
ghost use Rattle.mesh_arrays.specs.Order.{run_length, begins_with};
ghost use Rattle.mesh_arrays.specs.Walk.{IsReady, IsPatched};

use crate::walk::Walk;
use bintree_addr::{Slot, Tri};
use triangle_pool::Pool;

/// Writes the leaves at and below a slot, by those before, and notes what went and what came.
///
/// Cost (not proved): a step for each triangle with a mark and for each child of one, and for each leaf that goes or
/// comes; a copy of the leaves that stay.
pub(crate) fn patch_under(walk: &mut Walk, pool: &Pool, s: Slot, levels: u32)
    requires live { IsLive pool.now.pairs s.0 }
    requires level { level_of (address_at pool.now.pairs s.0) + levels ≡ 2 * pool.now.n }
    requires ready { IsReady pool.now.pairs walk.old.touched levels (address_at pool.now.pairs s.0) walk.old.rest }
    requires most { pool.now.most ≤ walk.old.most }
    requires room { length walk.old.leaves
        + length (leaves_under levels (split_set pool.now.pairs) (address_at pool.now.pairs s.0)) ≤ walk.old.most }
    ensures { IsPatched (leaves_under levels (split_set pool.now.pairs) (address_at pool.now.pairs s.0))
        (address_at pool.now.pairs s.0) walk.old walk.new }
{
    let _n = pool.n();
    let t = pool.tri(s);
    if !walk.is_touched(s) {
        keep_all(walk, t);
        return;
    }
    match pool.children(s) {
        None => patch_leaf(walk, t),
        Some((left, right)) => {
            if walk.is_next(t) {
                walk.leave(1);
                put_under(walk, pool, s, levels);
            } else {
                patch_under(walk, pool, left, levels - 1);
                patch_under(walk, pool, right, levels - 1);
            }
        }
    }
}

/// The leaves at and below a triangle are as before.
fn keep_all(walk: &mut Walk, t: Tri)
    requires room { length walk.old.leaves + run_length t walk.old.rest ≤ walk.old.most }
    ensures { walk.new ≡ record walk.old {
      leaves = walk.old.leaves ++ take (run_length t walk.old.rest) walk.old.rest;
      rest = drop (run_length t walk.old.rest) walk.old.rest;
    } }
{
    let count = walk.run(t);
    walk.keep(count);
}

/// A triangle is a leaf now: it stays where it was one, and else comes for those below it.
fn patch_leaf(walk: &mut Walk, t: Tri)
    requires room { length walk.old.leaves + 1 ≤ walk.old.most }
    ensures stays { begins_with t walk.old.rest ≡ true → walk.new ≡ record walk.old {
      leaves = walk.old.leaves ++ t ∷ [];
      rest = drop 1 walk.old.rest;
    } }
    ensures comes { begins_with t walk.old.rest ≡ false → walk.new ≡ record walk.old {
      leaves = walk.old.leaves ++ t ∷ [];
      rest = drop (run_length t walk.old.rest) walk.old.rest;
      gone = walk.old.gone ++ take (run_length t walk.old.rest) walk.old.rest;
      come = walk.old.come ++ t ∷ [];
    } }
{
    if walk.is_next(t) {
        walk.keep(1);
    } else {
        let count = walk.run(t);
        walk.leave(count);
        walk.put(t);
    }
}

/// The leaves at and below a slot come.
///
/// Cost (not proved): a step for each triangle.
pub(crate) fn put_under(walk: &mut Walk, pool: &Pool, s: Slot, levels: u32)
    requires live { IsLive pool.now.pairs s.0 }
    requires level { level_of (address_at pool.now.pairs s.0) + levels ≡ 2 * pool.now.n }
    requires room { length walk.old.leaves
        + length (leaves_under levels (split_set pool.now.pairs) (address_at pool.now.pairs s.0)) ≤ walk.old.most }
    ensures { walk.new ≡ record walk.old {
      leaves = walk.old.leaves ++ leaves_under levels (split_set pool.now.pairs) (address_at pool.now.pairs s.0);
      come = walk.old.come ++ leaves_under levels (split_set pool.now.pairs) (address_at pool.now.pairs s.0);
    } }
{
    let _n = pool.n();
    match pool.children(s) {
        Some((left, right)) => {
            put_under(walk, pool, left, levels - 1);
            put_under(walk, pool, right, levels - 1);
        }
        None => walk.put(pool.tri(s)),
    }
}
