//! Worked meshes of the grid of side 4: links across edges.

ghost use Rattle.std.specs.Prelude.{IfSome};
ghost use Rattle.mesh_laws.specs.Slots.{IsLive, HasLeaf};

use bintree_addr::Slot;
use std::alloc::Global;
use triangle_pool::{Born, Pool};

/// The slot at which a triangle with this address is live, among the first 64.
fn slot_of(pool: &Pool, number: u32) -> Option<Slot>
    ensures { IfSome result (λ s. IsLive pool.now.pairs s.0) }
{
    for s in 0..64 {
        if pool.is_live(Slot(s)) && pool.tri(Slot(s)).number() == number {
            return Some(Slot(s));
        }
    }
    None
}

/// The slot of the leaf with this address, if it is one.
fn leaf_of(pool: &Pool, number: u32) -> Option<Slot>
    ensures { IfSome result (λ s. HasLeaf pool.now.pairs s.0) }
{
    let s = slot_of(pool, number)?;
    if pool.is_leaf(s) { Some(s) } else { None }
}

/// The address at a live slot, and else 0.
fn address(pool: &Pool, link: Option<Slot>) -> u32 {
    match link {
        Some(s) if pool.is_live(s) => pool.tri(s).number(),
        _ => 0,
    }
}

/// Splits the leaf with this address, where all that a split asks for holds.
fn split(pool: &mut Pool, number: u32) -> Option<Born> {
    let s = leaf_of(pool, number)?;
    let wanted = if pool.base(s).is_none() { 1 } else { 2 };
    let coarse = pool.tri(s).level() < 2 * pool.n();
    if !coarse || !pool.may_split(s) || pool.room() < wanted || pool.splits() >= 1 << 62 {
        return None;
    }
    Some(pool.split(s))
}

/// A pool with room for nine leaves, after these splits.
fn pool_with(alloc: Global, splits: &[u32]) -> Option<Pool> {
    let mut pool = Pool::new(alloc, 2, 9).ok()?;
    for number in splits {
        split(&mut pool, *number)?;
    }
    Some(pool)
}

/// The addresses across the base, the left and the right leg of a leaf; 0 at the border.
fn links(pool: &Pool, number: u32) -> Option<[u32; 3]> {
    let s = leaf_of(pool, number)?;
    Some([
        address(pool, pool.base(s)),
        address(pool, pool.left(s)),
        address(pool, pool.right(s)),
    ])
}

/// The links of a leaf after these splits.
fn links_after(alloc: Global, splits: &[u32], number: u32) -> Option<[u32; 3]> {
    links(&pool_with(alloc, splits)?, number)
}

#[test]
fn leaves_are_linked_across_their_edges(rt: HostRuntime) {
    // 4 has its base on the border, 5 across its left leg and 7 across its right leg.
    let cases: [(&[u32], u32, [u32; 3]); 6] = [
        (&[], 2, [3, 0, 0]),
        (&[], 3, [2, 0, 0]),
        (&[2], 4, [0, 5, 7]),
        (&[2, 4], 8, [5, 9, 0]),
        (&[2, 4], 9, [7, 0, 8]),
        (&[2, 4], 5, [0, 6, 8]),
    ];
    for (splits, number, links) in cases {
        assert_eq!(rt;
            links_after(rt.alloc(), splits, number),
            Some(links),
            "{number}"
        );
    }
}
