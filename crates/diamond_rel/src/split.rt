//! A closed set of split triangles, which stands for a conforming triangulation.

ghost use Rattle.std.specs.Prelude.{◌≡◌, ℕ, ◌+◌, ◌≤◌, List, [], length, IsTrue, IfOk, OnOk, OnErr};
ghost use Rattle.mesh_defs.specs.Triangle.{IsSplittable};
ghost use Rattle.mesh_defs.specs.Tiling.{IsConforming};
ghost use Rattle.mesh_defs.specs.ClosedSet.{IsClosed, leaves_of, among};
ghost use Rattle.mesh_laws.specs.Ancestors.{ancestors_of, AreLeaves};
ghost use Rattle.mesh_defs.specs.GridSet.{IsGridSet, IsForced, IsGain};
ghost use Rattle.mesh_defs.specs.declared.level.TheConstants.{GREATEST_LEVEL};

use crate::forcing::force;
use crate::leaves::push_all_leaves;
use crate::members::contains;
use bintree_addr::Tri;
use mesh_defs::NoMemory;
use mesh_laws::conformity_laws;
use std::alloc::Global;
use std::marker::Model;

/// The triangles that are split: with each its parent, and its mate where it has one.
///
/// Its leaves are a mesh without cracks; each such mesh of the grid is the leaves of one set.
/// It is a vector in ascending order, so it takes four bytes a member.
#[derive(Drop)]
pub struct Split {
    n: u32,
    members: Vec<Tri>,
}

impl Model for Split {
    ghost use Rattle.mesh_defs.specs.GridSet.{GridSet, IsGridSet};

    ghost Value = { GridSet };

    ghost view = { λ s. record { n = s.n; members = s.members.items } };

    ghost invariant = { λ s. IsGridSet s.n s.members.items };
}

impl Split {
    /// The empty set of the grid of side 2^n: its leaves are the two halves of the square.
    pub fn base(alloc: Global, n: u32) -> Self
        requires in_grid { (1 ≤ n) × (n ≤ GREATEST_LEVEL) }
        ensures n { result.n ≡ n }
        ensures empty { result.members ≡ [] }
    {
        Split {
            n,
            members: Vec::new(alloc),
        }
    }

    /// The grid has the side 2^n.
    pub fn n(&self) -> u32
        ensures value { result ≡ self.now.n }
        ensures valid { IsGridSet self.now.n self.now.members }
    {
        self.n
    }

    /// Whether the triangle is split.
    ///
    /// Cost (not proved): a binary search.
    pub fn has(&self, t: Tri) -> bool
        ensures value { result ≡ among self.now.members t }
        ensures valid { IsGridSet self.now.n self.now.members }
    {
        contains(&self.members, t)
    }

    /// How many triangles are split.
    pub fn size(&self) -> u32
        ensures value { result ≡ length self.now.members }
        ensures leaves { length (leaves_of self.now.n (among self.now.members)) ≡ result + 2 }
        ensures valid { IsGridSet self.now.n self.now.members }
    {
        self.members.len() as u32
    }

    /// By how many members the set would grow, if the triangle were split by force.
    ///
    /// Cost (not proved): as `split_forced`.
    pub fn gain(&self, alloc: Global, t: Tri) -> Result<u32, NoMemory>
        requires splittable { IsSplittable self.now.n t }
        ensures ok { IfOk result (IsGain self.now.n self.now.members t) }
        ensures member { IfOk result (λ gain. IsTrue (among self.now.members t) → gain ≡ 0) }
    {
        let mut scratch = Vec::from_slice(alloc, &self.members)?;
        force(&mut scratch, self.n, t)?;
        Ok((scratch.len() - self.members.len()) as u32)
    }

    /// Splits the triangle, with what that forces, and answers by how many members the set grew.
    ///
    /// Cost (not proved): a copy of the set, and at most two searches and inserts a level.
    pub fn split_forced(&mut self, t: Tri) -> Result<u32, NoMemory>
        requires splittable { IsSplittable self.old.n t }
        ensures n { self.new.n ≡ self.old.n }
        ensures ok { OnOk result (IsForced self.old.n self.old.members t self.new.members) }
        ensures gain { IfOk result (λ gain. length self.new.members ≡ length self.old.members + gain) }
        ensures err { OnErr result (self.new ≡ self.old) }
    {
        let mut grown = Vec::from_slice(self.members.allocator().clone()?, &self.members)?;
        force(&mut grown, self.n, t)?;
        let gain = (grown.len() - self.members.len()) as u32;
        self.members = grown;
        Ok(gain)
    }

    /// The leaves, depth first: 2 before 3, and left child before right child.
    ///
    /// The last three clauses are the theorem on closed sets: each conforming list is the leaves of one.
    /// Cost (not proved): a search a member and a leaf.
    pub fn leaves(&self, alloc: Global) -> Result<Vec<Tri>, NoMemory>
        ensures value { IfOk result (λ v. v.items ≡ leaves_of self.now.n (among self.now.members)) }
        ensures count { IfOk result (λ v. length v.items ≡ length self.now.members + 2) }
        ensures conforming { IfOk result (λ v. IsConforming self.now.n v.items) }
        ensures closed { (others : List ℕ) → IsConforming self.now.n others →
            IsClosed self.now.n (ancestors_of others) }
        ensures each_once { (others : List ℕ) → IsConforming self.now.n others →
            AreLeaves self.now.n (ancestors_of others) others }
        ensures same_count { (others : List ℕ) → IsConforming self.now.n others
            → length (leaves_of self.now.n (ancestors_of others)) ≡ length others }
    {
        conformity_laws();
        let mut leaves = Vec::new(alloc);
        push_all_leaves(&self.members, self.n, &mut leaves)?;
        Ok(leaves)
    }
}
