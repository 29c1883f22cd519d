//! A walk over a mesh that expires stamps, from the halves of the square down.

ghost use Rattle.std.specs.Prelude.{◌≡◌, ℕ, ◌*◌, ◌≤◌, ◌&&◌, Bool, true, false, nat_eq};
ghost use Rattle.mesh_defs.specs.Triangle.{level_of};
ghost use Rattle.mesh_defs.specs.declared.level.TheConstants.{GREATEST_LEVEL};
ghost use Rattle.mesh_laws.specs.Slots.{address_at, IsLive};
ghost use Rattle.mesh_arrays.specs.Below.{is_at_or_below};
ghost use Rattle.view_mesh.specs.declared.walk.Below.TheVariants.{Nothing, Everything};
ghost use Rattle.view_mesh.specs.Expiry.{IsExpired};

use bintree_addr::{Slot, Tri};
use roam_mesh::Mesh;

/// What is known of a triangle on the way down.
#[derive(Clone, Copy, Debug)]
pub struct Expiring {
    /// Whether its stamp expires.
    pub itself: bool,
    /// Which stamps expire at and below it.
    pub below: Below,
}

/// Which stamps expire at and below a triangle.
#[derive(Clone, Copy, Debug)]
pub enum Below {
    /// None of them.
    Nothing,
    /// Some of them may.
    Part,
    /// All of them.
    Everything,
}

/// Tells of which triangles the stamps expire.
pub trait Expiry {
    // The grid's n: its side is 2^n.
    ghost n: { Self → ℕ };

    // Whether the stamp of a triangle expires.
    ghost expires: { Self → ℕ → Bool };

    /// Whether the stamp of a triangle expires, and which expire at and below it.
    fn at(&self, t: Tri) -> Expiring
        requires in_grid { (1 ≤ n self.now) × (n self.now ≤ GREATEST_LEVEL) }
        requires level { level_of t ≤ 2 * n self.now }
        ensures itself { result.itself ≡ expires self.now t }
        ensures nothing { result.below ≡ Nothing → (a : ℕ) → is_at_or_below t a ≡ true →
            level_of a ≤ 2 * n self.now → expires self.now a ≡ false }
        ensures everything { result.below ≡ Everything → (a : ℕ) → is_at_or_below t a ≡ true →
            level_of a ≤ 2 * n self.now → expires self.now a ≡ true };
}

/// Expires the stamps that are told.
///
/// Cost (not proved): a step for each triangle of the mesh at or below which a stamp may expire, and for its children;
/// nothing is asked below one where all do.
pub fn expire_by<E: Expiry>(mesh: &mut Mesh, expiry: &E)
    requires n { mesh.old.pool.n ≡ E.n expiry.now }
    ensures { IsExpired mesh.old mesh.new (E.expires expiry.now) }
{
    let _halves = mesh.pool();
    expire_under(mesh, Slot(0), expiry);
    expire_under(mesh, Slot(1), expiry);
}

/// Expires those of the stamps at and below a slot.
fn expire_under<E: Expiry>(mesh: &mut Mesh, s: Slot, expiry: &E)
    requires live { IsLive mesh.old.pool.pairs s.0 }
    requires n { mesh.old.pool.n ≡ E.n expiry.now }
    ensures { IsExpired mesh.old mesh.new
        (λ a. is_at_or_below (address_at mesh.old.pool.pairs s.0) a && E.expires expiry.now a) }
{
    let pool = mesh.pool();
    let t = pool.tri(s);
    let expiring = expiry.at(t);
    match expiring.below {
        Below::Nothing => {}
        Below::Part => {
            let children = pool.children(s);
            expire_if(mesh, s, expiring.itself);
            if let Some((left, right)) = children {
                expire_under(mesh, left, expiry);
                expire_under(mesh, right, expiry);
            }
        }
        Below::Everything => expire_all_under(mesh, s),
    }
}

/// Expires the stamp of the triangle at a slot, if so told.
fn expire_if(mesh: &mut Mesh, s: Slot, told: bool)
    requires live { IsLive mesh.old.pool.pairs s.0 }
    ensures { IsExpired mesh.old mesh.new
        (λ a. nat_eq (address_at mesh.old.pool.pairs s.0) a && told) }
{
    if told {
        mesh.expire_at(s);
    }
}

/// Expires all stamps at and below a slot.
pub(crate) fn expire_all_under(mesh: &mut Mesh, s: Slot)
    requires live { IsLive mesh.old.pool.pairs s.0 }
    ensures { IsExpired mesh.old mesh.new (is_at_or_below (address_at mesh.old.pool.pairs s.0)) }
{
    let pool = mesh.pool();
    let children = pool.children(s);
    mesh.expire_at(s);
    if let Some((left, right)) = children {
        expire_all_under(mesh, left);
        expire_all_under(mesh, right);
    }
}
