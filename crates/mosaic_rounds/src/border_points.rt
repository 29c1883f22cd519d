//! The border points of one mesh.

ghost use Rattle.std.specs.Prelude.{◌≡◌, ℕ, ◌+◌, ◌*◌, ◌^◌, ◌≤◌, ◌↔◌, ◌||◌, false, IsTrue, IfOk, All, length};
ghost use Rattle.mesh_defs.specs.Triangle.{level_of, IsSplittable};
ghost use Rattle.mesh_defs.specs.declared.level.TheConstants.{GREATEST_LEVEL};
ghost use Rattle.mesh_laws.specs.Ancestors.{is_above, ancestors_of};
ghost use Rattle.mosaic_rounds.specs.BorderPoints.{has_split, IsKept};
ghost use Rattle.mosaic_rounds.specs.Place.{IsBorderPlace, IsSaidBy};

use crate::mark::{clear, mark_above, mark_splits};
use crate::place::border_triangle;
use bintree_addr::Tri;
use mesh_defs::NoMemory;
use std::alloc::Global;
use std::marker::Model;

/// Which triangles with their base on the border of a square of side 2^n a mesh has split, and whether it has split 2,
/// whose centre is the square's: so which border points but for the corners are vertices of the mesh, and whether the
/// centre is.
///
/// Memory: a bit for each border point, and a word.
#[derive(Drop)]
pub struct BorderPoints {
    n: u32,
    words: Vec<u64>,
}

impl Model for BorderPoints {
    ghost use Rattle.mosaic_rounds.specs.BorderPoints.{BorderState, border_of, IsBorder};

    ghost Value = { BorderState };

    ghost view = { λ b. border_of b.n b.words.items };

    ghost invariant = { λ b. IsBorder b.n b.words.items };
}

impl BorderPoints {
    /// No border point, nor the centre.
    pub fn make(alloc: Global, n: u32) -> Result<BorderPoints, NoMemory>
        requires in_grid { (1 ≤ n) × (n ≤ GREATEST_LEVEL) }
        ensures n { IfOk result (λ b. b.n ≡ n) }
        ensures none { IfOk result (λ b. (a : ℕ) → has_split b a ≡ false) }
    {
        let words = vec![in alloc; 0u64; (1usize << (n + 2)) / 64 + 1]?;
        Ok(BorderPoints { n, words })
    }

    /// Takes all points away, so that those of another mesh can be told.
    pub fn clear(&mut self)
        ensures n { self.new.n ≡ self.old.n }
        ensures none { (a : ℕ) → has_split self.new a ≡ false }
    {
        clear(&mut self.words);
    }

    /// Adds what a mesh that splits this triangle has on the border: the triangle's centre, if that is there, and the
    /// centres of those above it.
    ///
    /// Cost (not proved): a step for each two levels.
    pub fn add(&mut self, t: Tri)
        requires splittable { IsSplittable self.old.n t }
        ensures n { self.new.n ≡ self.old.n }
        ensures added { (a : ℕ) → IsKept self.old.n a →
            has_split self.new a ≡ (has_split self.old a || is_above a (2 * t)) }
        ensures only { (a : ℕ) → IsTrue (has_split self.new a) →
            IsTrue (has_split self.old a || is_above a (2 * t)) }
    {
        mark_above(&mut self.words, self.n, t.left());
    }

    /// Adds what a mesh of these triangles has on the border; those that do not touch it nor lie below 2 may be left
    /// out.
    ///
    /// Cost (not proved): a few steps for each leaf, and one more for each triangle above it that is on a side.
    pub fn add_leaves(&mut self, leaves: &[Tri])
        requires levels { All (λ a. level_of a ≤ 2 * self.old.n) leaves.now }
        ensures n { self.new.n ≡ self.old.n }
        ensures added { (a : ℕ) → IsKept self.old.n a →
            has_split self.new a ≡ (has_split self.old a || ancestors_of leaves.now a) }
        ensures only { (a : ℕ) → IsTrue (has_split self.new a) →
            IsTrue (has_split self.old a || ancestors_of leaves.now a) }
    {
        mark_splits(&mut self.words, self.n, leaves);
    }

    /// Makes these border points, by their places in the heights of a grid, and the centre those of the mesh, with the
    /// points that a mesh has where it has them. Answers whether it did: not where a place is not that of a point on
    /// the border, or is that of a corner of the square; then it has some of the points.
    ///
    /// Cost (not proved): two steps a level for each point.
    pub fn put(&mut self, border: &[u32]) -> bool
        ensures n { self.new.n ≡ self.old.n }
        ensures taken { IsTrue result ↔ All (IsBorderPlace self.old.n) border.now }
        ensures says { IsTrue result → (a : ℕ) →
            (IsTrue (has_split self.new a) ↔ IsSaidBy self.old.n border.now a) }
    {
        let n = self.n;
        self.clear();
        self.add(Tri::LOWER);
        for &place in border {
            let Some(t) = border_triangle(n, place) else {
                return false;
            };
            self.add(t);
        }
        true
    }

    /// The bits.
    pub(crate) fn bits(&self) -> &[u64]
        ensures value { result.now ≡ self.now.bits }
        ensures room { 2 ^ (self.now.n + 2) ≤ 64 * length result.now }
    {
        &self.words
    }
}
