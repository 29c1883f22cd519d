//! The nodes, linked right and closed.

ghost use Rattle.std.specs.Prelude.{◌≡◌, ◌≢◌, ◌⊎◌, ◌↔◌, ℕ, ◌+◌, ◌-◌, ◌*◌, ◌/◌, ◌%◌, ◌^◌, ◌<◌, ◌≤◌, IfOk, IsTrue, false};
ghost use Rattle.std.specs.Prelude.{true, length, slice_index, slice_set};
ghost use Rattle.mesh_defs.specs.declared.level.TheConstants.{GREATEST_LEVEL};
ghost use Rattle.mesh_laws.specs.Edge.{mate_of, owner};
ghost use Rattle.mesh_laws.specs.Net.{nowhere};
ghost use Rattle.mesh_laws.specs.Slots.{address_at, has_children, IsLive};

use crate::forest::{NOWHERE, Node, address};
use crate::links::{merge_border, merge_diamond, split_border, split_diamond};
use bintree_addr::Tri;
use mesh_defs::NoMemory;
use std::alloc::Global;
use std::marker::Model;

#[derive(Drop)]
pub struct Nodes {
    n: u32,
    pairs: Vec<u32>,
    parents: Vec<u32>,
    nodes: Vec<Node>,
}

impl Model for Nodes {
    ghost use Rattle.triangle_pool.specs.Slots.{NodesState};
    ghost use Rattle.triangle_pool.specs.Links.{IsMesh};

    ghost Value = { NodesState };

    ghost view = { λ p. record { n = p.n; pairs = p.pairs.items } };

    ghost invariant = { λ p. IsMesh p.n p.pairs.items p.parents.items p.nodes.items };
}

/// The node of a half of the square, with the slot of the other half.
fn half(other: u32) -> Node
    ensures { result ≡ record { children = nowhere; base = other; left = nowhere; right = nowhere } }
{
    Node {
        children: NOWHERE,
        base: other,
        left: NOWHERE,
        right: NOWHERE,
    }
}

impl Nodes {
    /// The two halves of the square, and so many pairs of slots.
    pub fn new(alloc: Global, n: u32, how_many: usize) -> Result<Nodes, NoMemory>
        requires n { (1 ≤ n) × (n ≤ GREATEST_LEVEL) }
        requires some { 1 ≤ how_many }
        requires few { how_many < 2 ^ 20 }
        ensures n { IfOk result (λ r. r.n ≡ n) }
        ensures count { IfOk result (λ r. length r.pairs ≡ how_many) }
        ensures first { IfOk result (λ r. slice_index r.pairs 0 ≡ 1) }
        ensures free { IfOk result (λ r. (i : ℕ) → i ≢ 0 → slice_index r.pairs i ≡ 0) }
    {
        let mut pairs = vec![in alloc; 0; how_many]?;
        pairs[0] = 1;
        let parents = vec![in alloc; 0; how_many]?;
        let mut nodes = vec![in alloc; half(0); 2 * how_many]?;
        nodes[0] = half(1);
        nodes[1] = half(0);
        Ok(Nodes {
            n,
            pairs,
            parents,
            nodes,
        })
    }

    ghost use Rattle.triangle_pool.specs.Links.{MaySplit, MaySplitMate, MayMerge, AreChildrenAt, IsAcross};
    ghost use Rattle.mesh_laws.specs.Slots.{IsPool, HasTwoLeaves};

    /// The address at a slot.
    pub fn tri(&self, s: u32) -> Tri
        requires live { IsLive self.now.pairs s }
        ensures { result ≡ address_at self.now.pairs s }
    {
        Tri::at(address(&self.pairs, s)).unwrap()
    }

    /// Whether the slot is live.
    pub fn is_live(&self, s: u32) -> bool
        ensures { IsTrue result ↔ IsLive self.now.pairs s }
    {
        let pair = s as usize / 2;
        pair < self.pairs.len() && self.pairs[pair] != 0
    }

    /// The slot across the base, or NOWHERE.
    #[tactic(auto, using(crate::proofs::PoolLemmas::base_across))]
    pub fn base(&self, s: u32) -> u32
        requires live { IsLive self.now.pairs s }
        ensures grid { self.now.n ≤ GREATEST_LEVEL }
        ensures root { has_children self.now.pairs 1 ≡ true }
        ensures base { ((mate_of (address_at self.now.pairs s) ≡ 0) × (result ≡ nowhere))
            ⊎ ((1 ≤ mate_of (address_at self.now.pairs s))
            × (address_at self.now.pairs result
            ≡ owner (has_children self.now.pairs) (mate_of (address_at self.now.pairs s)))) }
    {
        self.nodes[s as usize].base
    }

    /// The slot across the left leg of a leaf, or NOWHERE.
    pub fn left(&self, s: u32) -> u32
        requires live { IsLive self.now.pairs s }
        requires leaf { has_children self.now.pairs (address_at self.now.pairs s) ≡ false }
        ensures { IsAcross self.now.pairs (2 * address_at self.now.pairs s) result }
    {
        self.nodes[s as usize].left
    }

    /// The slot across the right leg of a leaf, or NOWHERE.
    pub fn right(&self, s: u32) -> u32
        requires live { IsLive self.now.pairs s }
        requires leaf { has_children self.now.pairs (address_at self.now.pairs s) ≡ false }
        ensures { IsAcross self.now.pairs (2 * address_at self.now.pairs s + 1) result }
    {
        self.nodes[s as usize].right
    }

    /// Splits the leaf at s, whose base is on the border.
    pub fn split_alone(&mut self, s: u32, k: u32)
        requires may_split { MaySplit self.old.n self.old.pairs s k (address_at self.old.pairs s) }
        requires border { mate_of (address_at self.old.pairs s) ≡ 0 }
        ensures n { self.new.n ≡ self.old.n }
        ensures pairs { self.new.pairs ≡ slice_set self.old.pairs k (address_at self.old.pairs s) }
    {
        split_border(
            self.n,
            &mut self.pairs,
            &mut self.parents,
            &mut self.nodes,
            s,
            k,
        );
    }

    /// Splits the leaf at s and its mate at t.
    pub fn split_both(&mut self, s: u32, t: u32, k: u32, j: u32)
        requires may_split { MaySplit self.old.n self.old.pairs s k (address_at self.old.pairs s) }
        requires second { MaySplitMate self.old.pairs t k j (address_at self.old.pairs s) }
        ensures n { self.new.n ≡ self.old.n }
        ensures pairs { self.new.pairs
            ≡ slice_set (slice_set self.old.pairs k (address_at self.old.pairs s)) j
            (mate_of (address_at self.old.pairs s)) }
    {
        split_diamond(
            self.n,
            &mut self.pairs,
            &mut self.parents,
            &mut self.nodes,
            s,
            t,
            k,
            j,
        );
    }

    /// The pair of the children, or NOWHERE.
    pub fn children(&self, s: u32) -> u32
        requires live { IsLive self.now.pairs s }
        ensures { AreChildrenAt self.now.pairs (address_at self.now.pairs s) result }
    {
        self.nodes[s as usize].children
    }

    /// The grid has the side 2^n.
    pub fn n(&self) -> u32
        ensures value { result ≡ self.now.n }
        ensures valid { IsPool self.now.n self.now.pairs }
        ensures short { length self.now.pairs < 2 ^ 31 }
    {
        self.n
    }

    /// The slot of the mate of a triangle that is split, or NOWHERE.
    pub fn partner(&self, s: u32) -> u32
        requires live { IsLive self.now.pairs s }
        requires split { has_children self.now.pairs (address_at self.now.pairs s) ≡ true }
        ensures none { result ≡ nowhere ↔ mate_of (address_at self.now.pairs s) ≡ 0 }
        ensures some { result ≢ nowhere → address_at self.now.pairs result ≡ mate_of (address_at self.now.pairs s) }
    {
        let _n = self.n();
        self.base(s)
    }

    /// Whether the triangle is split, and both its children are leaves.
    pub fn has_two_leaves(&self, s: u32) -> bool
        requires live { IsLive self.now.pairs s }
        ensures { IsTrue result ↔ HasTwoLeaves self.now.pairs (address_at self.now.pairs s) }
    {
        let _n = self.n();
        let k = self.children(s);
        if k == NOWHERE {
            return false;
        }
        let left = self.children(2 * k);
        let right = self.children(2 * k + 1);
        left == NOWHERE && right == NOWHERE
    }

    /// The slot of the parent, or NOWHERE.
    pub fn parent(&self, s: u32) -> u32
        requires live { IsLive self.now.pairs s }
        ensures none { result ≡ nowhere ↔ address_at self.now.pairs s < 4 }
        ensures some { result ≢ nowhere → address_at self.now.pairs result ≡ address_at self.now.pairs s / 2 }
    {
        let pair = s as usize / 2;
        if self.pairs[pair] == 1 {
            NOWHERE
        } else {
            self.parents[pair]
        }
    }

    /// Merges the triangle at s, whose base is on the border.
    pub fn merge_alone(&mut self, s: u32, k: u32)
        requires may_merge { MayMerge self.old.pairs s k (address_at self.old.pairs s) }
        requires border { mate_of (address_at self.old.pairs s) ≡ 0 }
        ensures n { self.new.n ≡ self.old.n }
        ensures pairs { self.new.pairs ≡ slice_set self.old.pairs k 0 }
    {
        merge_border(
            self.n,
            &mut self.pairs,
            &self.parents,
            &mut self.nodes,
            s,
            k,
        );
    }

    /// Merges the triangle at s and its mate at t.
    pub fn merge_both(&mut self, s: u32, t: u32, k: u32, j: u32)
        requires may_merge { MayMerge self.old.pairs s k (address_at self.old.pairs s) }
        requires mate { 1 ≤ mate_of (address_at self.old.pairs s) }
        requires second { MayMerge self.old.pairs t j (mate_of (address_at self.old.pairs s)) }
        ensures n { self.new.n ≡ self.old.n }
        ensures pairs { self.new.pairs ≡ slice_set (slice_set self.old.pairs k 0) j 0 }
    {
        merge_diamond(
            self.n,
            &mut self.pairs,
            &self.parents,
            &mut self.nodes,
            s,
            t,
            k,
            j,
        );
    }
}
