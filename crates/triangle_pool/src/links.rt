//! Changing a link.

ghost use Rattle.std.specs.Prelude.{◌≡◌, ℕ, ◌+◌, ◌*◌, ◌/◌, ◌%◌, ◌^◌, ◌<◌, ◌≤◌, ◌==◌, slice_index, slice_set, length};
ghost use Rattle.mesh_defs.specs.Triangle.{level_of};
ghost use Rattle.mesh_laws.specs.Slots.{address_at, IsLive, split_set};
ghost use Rattle.triangle_pool.specs.Links.{node_at, with_link, ArePairs, IsAcross, IsRelinked, IsForest, MayHalve};
ghost use Rattle.triangle_pool.specs.Links.{AreInnerLinks, ArePlacedNodes, MaySplit, MaySplitMate, MayJoin};
ghost use Rattle.triangle_pool.specs.Links.{IsLeafAgain, MayMerge};
ghost use Rattle.mesh_defs.specs.ClosedSet.{IsClosed};
ghost use Rattle.mesh_defs.specs.declared.level.TheConstants.{GREATEST_LEVEL};
ghost use Rattle.std.specs.Prelude.{◌≢◌};
ghost use Rattle.mesh_laws.specs.Net.{nowhere};
ghost use Rattle.mesh_laws.specs.Edge.{mate_of};

use crate::forest::{NOWHERE, Node, address, level};

/// Changes the link to a finer or an equally fine leaf's far side.
fn turn(nodes: &mut [Node], x: u32, finer: bool, even: bool, to: u32)
    requires { x < length nodes.old }
    ensures { nodes.new ≡ slice_set nodes.old x (with_link (node_at nodes.old x) finer even to) }
{
    let node = &mut nodes[x as usize];
    if finer {
        node.base = to;
    } else if even {
        node.right = to;
    } else {
        node.left = to;
    }
}

/// Links the edge across f, which is that of the leaf at x, to the slot `to`.
pub fn relink(pairs: &[u32], nodes: &mut [Node], x: u32, f: u32, to: u32)
    requires low { 4 ≤ f }
    requires high { f < 2 ^ 30 }
    requires pairs { ArePairs pairs.now }
    requires length { length nodes.old ≡ 2 * length pairs.now }
    requires across { IsAcross pairs.now f x }
    ensures relinked { IsRelinked pairs.now nodes.old nodes.new f to }
{
    if x == NOWHERE {
        return;
    }
    let finer = level(address(pairs, x)) == level(f);
    turn(nodes, x, finer, f % 2 == 0, to);
}

/// Links the children of the mate, which are the pair `mate`, to the new pair k of a's children.
fn link_inner(pairs: &[u32], nodes: &mut [Node], s: u32, k: u32, mate: u32)
    requires pairs { ArePairs pairs.now }
    requires length { length nodes.old ≡ 2 * length pairs.now }
    requires ready { MayHalve pairs.now s k (address_at pairs.now s) mate }
    ensures inner { AreInnerLinks pairs.now nodes.old nodes.new k (address_at pairs.now s) mate }
{
    if mate == NOWHERE {
        return;
    }
    turn(nodes, 2 * mate, false, true, 2 * k + 1);
    turn(nodes, 2 * mate + 1, false, false, 2 * k);
}

/// The slot of a child in the mate's pair, or nowhere.
fn far_child(mate: u32, side: u32) -> u32
    requires low { side < 2 }
    requires small { mate ≢ nowhere → 2 * mate + side < 2 ^ 32 }
    ensures none { mate ≡ nowhere → result ≡ nowhere }
    ensures some { mate ≢ nowhere → result ≡ 2 * mate + side }
{
    if mate == NOWHERE {
        NOWHERE
    } else {
        2 * mate + side
    }
}

/// Puts the nodes of a pair in their place, and makes them the children of s.
fn place(nodes: &mut [Node], s: u32, k: u32, left: Node, right: Node)
    requires apart { s / 2 ≢ k }
    requires within { 2 * k + 1 < length nodes.old }
    requires small { 2 * k + 1 < 2 ^ 32 }
    requires own { s < length nodes.old }
    ensures { ArePlacedNodes nodes.old nodes.new s k left right }
{
    nodes[s as usize].children = k;
    nodes[2 * k as usize] = left;
    nodes[2 * k as usize + 1] = right;
}

/// Splits the leaf at s, whose children are to be the pair k. Where its mate was split before, `mate` is the pair of
/// the mate's children.
pub fn halve(pairs: &mut [u32], parents: &mut [u32], nodes: &mut [Node], s: u32, k: u32, mate: u32)
    requires forest { IsForest pairs.old parents.old nodes.old }
    requires ready { MayHalve pairs.old s k (address_at pairs.old s) mate }
    requires left { IsAcross pairs.old (2 * address_at pairs.old s) (node_at nodes.old s).left }
    requires right { IsAcross pairs.old (2 * address_at pairs.old s + 1) (node_at nodes.old s).right }
    ensures pairs { pairs.new ≡ slice_set pairs.old k (address_at pairs.old s) }
    ensures forest { IsForest pairs.new parents.new nodes.new }
{
    let number = address(pairs, s);
    let node = nodes[s as usize];
    relink(pairs, nodes, node.left, 2 * number, 2 * k);
    relink(pairs, nodes, node.right, 2 * number + 1, 2 * k + 1);
    link_inner(pairs, nodes, s, k, mate);
    let left = Node {
        children: NOWHERE,
        base: node.left,
        left: 2 * k + 1,
        right: far_child(mate, 1),
    };
    let right = Node {
        children: NOWHERE,
        base: node.right,
        left: far_child(mate, 0),
        right: 2 * k,
    };
    place(nodes, s, k, left, right);
    pairs[k as usize] = number;
    parents[k as usize] = s;
}

/// Splits the leaf at s, whose base lies on the border.
pub fn split_border(
    n: u32,
    pairs: &mut [u32],
    parents: &mut [u32],
    nodes: &mut [Node],
    s: u32,
    k: u32,
)
    requires forest { IsForest pairs.old parents.old nodes.old }
    requires closed { IsClosed n (split_set pairs.old) }
    requires may_split { MaySplit n pairs.old s k (address_at pairs.old s) }
    requires border { mate_of (address_at pairs.old s) ≡ 0 }
    ensures pairs { pairs.new ≡ slice_set pairs.old k (address_at pairs.old s) }
    ensures forest { IsForest pairs.new parents.new nodes.new }
    ensures closed { IsClosed n (split_set pairs.new) }
{
    let _n = n;
    halve(pairs, parents, nodes, s, k, NOWHERE);
}

/// Splits the leaf at s and its mate at t.
pub fn split_diamond(
    n: u32,
    pairs: &mut [u32],
    parents: &mut [u32],
    nodes: &mut [Node],
    s: u32,
    t: u32,
    k: u32,
    j: u32,
)
    requires forest { IsForest pairs.old parents.old nodes.old }
    requires closed { IsClosed n (split_set pairs.old) }
    requires may_split { MaySplit n pairs.old s k (address_at pairs.old s) }
    requires second { MaySplitMate pairs.old t k j (address_at pairs.old s) }
    ensures pairs { pairs.new
        ≡ slice_set (slice_set pairs.old k (address_at pairs.old s)) j (mate_of (address_at pairs.old s)) }
    ensures forest { IsForest pairs.new parents.new nodes.new }
    ensures closed { IsClosed n (split_set pairs.new) }
{
    let _n = n;
    halve(pairs, parents, nodes, s, k, NOWHERE);
    halve(pairs, parents, nodes, t, j, k);
}

/// Makes the node at s a leaf again, with these legs.
fn close_node(nodes: &mut [Node], s: u32, left: u32, right: u32)
    requires { s < length nodes.old }
    ensures { IsLeafAgain nodes.old nodes.new s left right }
{
    let node = &mut nodes[s as usize];
    node.children = NOWHERE;
    node.left = left;
    node.right = right;
}

/// Takes the two children of the triangle at s away, which are leaves at the pair k.
pub fn join(pairs: &mut [u32], parents: &[u32], nodes: &mut [Node], s: u32, k: u32)
    requires forest { IsForest pairs.old parents.now nodes.old }
    requires bare { MayJoin pairs.old s k (address_at pairs.old s) }
    requires left { IsAcross pairs.old (2 * address_at pairs.old s) (node_at nodes.old (2 * k)).base }
    requires right { IsAcross pairs.old (2 * address_at pairs.old s + 1) (node_at nodes.old (2 * k + 1)).base }
    ensures pairs { pairs.new ≡ slice_set pairs.old k 0 }
    ensures forest { IsForest pairs.new parents.now nodes.new }
{
    let _parents = parents;
    let number = address(pairs, s);
    let left = nodes[2 * k as usize].base;
    let right = nodes[2 * k as usize + 1].base;
    relink(pairs, nodes, left, 2 * number, s);
    relink(pairs, nodes, right, 2 * number + 1, s);
    close_node(nodes, s, left, right);
    pairs[k as usize] = 0;
}

/// Merges the triangle at s, whose base lies on the border.
pub fn merge_border(n: u32, pairs: &mut [u32], parents: &[u32], nodes: &mut [Node], s: u32, k: u32)
    requires n { n ≤ GREATEST_LEVEL }
    requires forest { IsForest pairs.old parents.now nodes.old }
    requires closed { IsClosed n (split_set pairs.old) }
    requires may_merge { MayMerge pairs.old s k (address_at pairs.old s) }
    requires border { mate_of (address_at pairs.old s) ≡ 0 }
    ensures pairs { pairs.new ≡ slice_set pairs.old k 0 }
    ensures forest { IsForest pairs.new parents.now nodes.new }
    ensures closed { IsClosed n (split_set pairs.new) }
{
    let _n = n;
    join(pairs, parents, nodes, s, k);
}

/// Merges the triangle at s and its mate at t.
pub fn merge_diamond(
    n: u32,
    pairs: &mut [u32],
    parents: &[u32],
    nodes: &mut [Node],
    s: u32,
    t: u32,
    k: u32,
    j: u32,
)
    requires n { n ≤ GREATEST_LEVEL }
    requires forest { IsForest pairs.old parents.now nodes.old }
    requires closed { IsClosed n (split_set pairs.old) }
    requires may_merge { MayMerge pairs.old s k (address_at pairs.old s) }
    requires mate { 1 ≤ mate_of (address_at pairs.old s) }
    requires second { MayMerge pairs.old t j (mate_of (address_at pairs.old s)) }
    ensures pairs { pairs.new ≡ slice_set (slice_set pairs.old k 0) j 0 }
    ensures forest { IsForest pairs.new parents.now nodes.new }
    ensures closed { IsClosed n (split_set pairs.new) }
{
    let _n = n;
    join(pairs, parents, nodes, s, k);
    join(pairs, parents, nodes, t, j);
}
