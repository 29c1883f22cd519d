//! The order of a strip, by reversing runs of the depth-first list.

ghost use Rattle.std.specs.Prelude.{◌≡◌, ◌≤◌, ◌<◌, ℕ, Bool, List, length, count_by, nat_eq, Contains};
ghost use Rattle.mesh_defs.specs.Triangle.{level_of};
ghost use Rattle.mesh_laws.specs.Strip.{AreLeavesInOrder, strip_of, IsRing};
ghost use Rattle.strip_order.specs.Run.{IsFront, IsArranged};

use bintree_addr::Tri;

/// The strip of a mesh from its leaves, depth first: each two neighbours share a whole edge, and so do the last and
/// the first.
///
/// So a graphics card can draw the mesh as one strip, and a walk can visit each triangle once and end beside its start.
/// The order follows from the addresses alone, so the set and its n are no arguments.
/// Cost (not proved): a move of each leaf for each level above it. Takes no memory; the stack has a frame a level.
pub fn strip(leaves: &[Tri], out: &mut [Tri])
    requires leaves { (n : ℕ) × (has : ℕ → Bool) × AreLeavesInOrder n has leaves.now }
    requires room { length out.old ≡ length leaves.now }
    ensures order { (n : ℕ) (has : ℕ → Bool) → AreLeavesInOrder n has leaves.now → out.new ≡ strip_of n has }
    ensures same { (a : ℕ) → count_by (λ t. nat_eq t a) out.new ≡ count_by (λ t. nat_eq t a) leaves.now }
    ensures once { (a : ℕ) → Contains leaves.now a → count_by (λ t. nat_eq t a) out.new ≡ 1 }
    ensures ring { (n : ℕ) (has : ℕ → Bool) → AreLeavesInOrder n has leaves.now → IsRing n out.new }
{
    out.copy_from_slice(leaves);
    let lower = arrange(out, half(2));
    let (_below, above) = out.split_at_mut(lower);
    arrange(above, half(3));
}

/// Puts the leaves of a triangle, with which the run begins, in the order of its strip, backwards at odd
/// levels, and answers how many they are.
///
/// The strips of both children end up turned round: at even levels they were backwards, and at odd levels
/// the whole is.
fn arrange(run: &mut [Tri], t: Tri) -> usize
    requires { (levels : ℕ) × (has : ℕ → Bool) × (rest : List ℕ) × IsFront levels has t rest run.old }
    ensures arranged { (levels : ℕ) (has : ℕ → Bool) (rest : List ℕ) →
        IsFront levels has t rest run.old → IsArranged levels has t rest run.new result }
    ensures room { length run.new ≡ length run.old }
    ensures within { result ≤ length run.old }
{
    if run[0] == t {
        return 1;
    }
    let left = arrange(run, t.left());
    let (front, back) = run.split_at_mut(left);
    front.reverse();
    let right = arrange(back, t.right());
    back[..right].reverse();
    left + right
}

/// One of the halves of the square, 2 or 3.
fn half(number: u32) -> Tri
    requires low { 2 ≤ number }
    requires high { number < 4 }
    ensures value { result ≡ number }
    ensures level { level_of result ≡ 0 }
{
    bintree_addr::level_laws();
    Tri::at(number).unwrap()
}
