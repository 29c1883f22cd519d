//! Stamps of triangles whose boxes leave planes that turn, or come within them.

ghost use Rattle.std.specs.Prelude.{◌≡◌, ℕ, ◌*◌, ◌≤◌, ◌^◌, ◌↔◌, Bool, cond, IsTrue, IsSome, IfSome};
ghost use Rattle.mesh_defs.specs.BoundingBox.{BoundingBox};
ghost use Rattle.mesh_defs.specs.Triangle.{level_of};
ghost use Rattle.mesh_defs.specs.declared.level.TheConstants.{GREATEST_LEVEL};
ghost use Rattle.cull_marks.specs.Cuboid.{as_box, IsWithinReach};
ghost use Rattle.view_mesh.specs.declared.walk.Below.TheVariants.{Nothing, Part};
ghost use Rattle.view_mesh.specs.Expiry.{IsExpired};
ghost use Rattle.view_mesh.specs.Turn.{AreNested, is_turn, is_settled, turns};

use crate::walk::{Below, Expiring, Expiry, expire_by};
use bintree_addr::{Cuboid, Tri};
use cull_marks::{Planes, mark_laws};
use mesh_defs::Mark;
use roam_mesh::Mesh;

/// Tells the boxes of triangles.
pub trait Boxes {
    // The grid's n: its side is 2^n.
    ghost n: { Self → ℕ };

    // Whether a triangle has a box. Those that have none have priority 0, whatever the planes.
    ghost has_box: { Self → ℕ → Bool };

    // The box of a triangle that has one.
    ghost box_at: { Self → ℕ → BoundingBox };

    /// The box of a triangle, if it has one.
    ///
    /// Its ends are in world units.
    fn cuboid(&self, t: Tri) -> Option<Cuboid>
        requires level { level_of t ≤ 2 * n self.now }
        ensures some { IsSome result ↔ IsTrue (has_box self.now t) }
        ensures value { IfSome result (λ c. as_box c ≡ box_at self.now t) }
        ensures reach { IfSome result (λ c. IsWithinReach (2 ^ 24) (as_box c)) };

    /// Each box lies in the parent's. It does nothing.
    fn nest(&self)
        ensures { AreNested (n self.now) (has_box self.now) (box_at self.now) };
}

/// The triangles whose boxes are Outside of one set of planes, and not of both.
#[derive(Drop)]
struct Turn<'a, B> {
    boxes: &'a B,
    before: &'a Planes,
    after: &'a Planes,
}

impl<'a, B: Boxes> Expiry for Turn<'a, B> {
    ghost n = { λ t. B.n t.boxes.now };

    ghost expires = { λ t. turns (B.has_box t.boxes.now) (B.box_at t.boxes.now) t.before.now t.after.now };

    // Where one is Inside, or Outside, before and after, all below it is so too; and below one without a box none has one.
    fn at(&self, t: Tri) -> Expiring {
        mark_laws();
        self.boxes.nest();
        match self.boxes.cuboid(t) {
            Some(cuboid) => expiring_between(self.before.mark(&cuboid), self.after.mark(&cuboid)),
            None => Expiring {
                itself: false,
                below: Below::Nothing,
            },
        }
    }
}

/// Expires the stamps of what planes that turn let in or leave out.
///
/// That is each triangle whose box is Outside of the planes before or of those after, and not of both.
/// Cost (not proved): a walk over the triangles of the mesh that have a box and are not Inside, nor Outside, both before
/// and after, and their children, with a mark of each by each set.
pub fn expire_turned<B: Boxes>(mesh: &mut Mesh, boxes: &B, before: &Planes, after: &Planes)
    requires n { mesh.old.pool.n ≡ B.n boxes.now }
    ensures { IsExpired mesh.old mesh.new
        (turns (B.has_box boxes.now) (B.box_at boxes.now) before.now after.now) }
{
    expire_by(
        mesh,
        &Turn {
            boxes,
            before,
            after,
        },
    );
}

/// What expires of a triangle that goes from one mark to another, and at or below it.
fn expiring_between(before: Mark, after: Mark) -> Expiring
    ensures own { result.itself ≡ is_turn before after }
    ensures below { result.below ≡ cond (is_settled before after) Nothing Part }
{
    let itself = match before {
        Mark::Outside => match after {
            Mark::Outside => false,
            Mark::Inside | Mark::Cut => true,
        },
        Mark::Inside | Mark::Cut => match after {
            Mark::Outside => true,
            Mark::Inside | Mark::Cut => false,
        },
    };
    let below = match before {
        Mark::Outside => match after {
            Mark::Outside => Below::Nothing,
            Mark::Inside | Mark::Cut => Below::Part,
        },
        Mark::Inside => match after {
            Mark::Inside => Below::Nothing,
            Mark::Outside | Mark::Cut => Below::Part,
        },
        Mark::Cut => Below::Part,
    };
    Expiring { itself, below }
}
