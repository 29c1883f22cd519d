//! A whole set of planes.

ghost use Rattle.std.specs.Prelude.{◌≡◌, ◌≤◌, ◌↔◌, true, false, IsSome, IfSome, All, length};
ghost use Rattle.cull_marks.specs.Plane.{IsPlane};
ghost use Rattle.roam_embed.specs.Looking.{plane_of, planes_of, ArePlanesPut};
ghost use Rattle.roam_embed.specs.declared.view.TheConstants.{MOST_PLANES};

use crate::answer::Answer;
use crate::notes::PlaneNumbers;
use crate::view::MOST_PLANES;
use cull_marks::{Plane, Planes};
use frame_loop::Engine;

/// Puts these planes in force in the place of those before.
///
/// Cost (not proved): that of `Engine::look`; takes no memory.
pub fn put_planes(engine: &mut Engine, planes: &[PlaneNumbers]) -> Answer
    ensures { ArePlanesPut engine.old engine.new planes.now result }
{
    if !are_planes(planes) {
        return Answer::BadPlane;
    }
    if planes.len() > MOST_PLANES as usize {
        return Answer::TooManyPlanes;
    }
    engine.look(&made_planes(planes));
    Answer::Done
}

/// Whether all are planes.
pub fn are_planes(planes: &[PlaneNumbers]) -> bool
    ensures all { result ≡ true → All (λ p. IsPlane (plane_of p)) planes.now }
    ensures some { result ≡ false → All (λ p. IsPlane (plane_of p)) planes.now → ⊥ }
{
    for p in planes {
        if plane(p).is_none() {
            return false;
        }
    }
    true
}

/// The plane of these numbers, if it is one.
fn plane(p: &PlaneNumbers) -> Option<Plane>
    ensures valid { IsSome result ↔ IsPlane (plane_of p.now) }
    ensures value { IfSome result (λ it. it ≡ plane_of p.now) }
{
    Plane::new(p.a, p.b, p.c, p.d)
}

/// These planes.
pub fn made_planes(planes: &[PlaneNumbers]) -> Planes
    requires valid { All (λ p. IsPlane (plane_of p)) planes.now }
    requires few { length planes.now ≤ MOST_PLANES }
    ensures { result ≡ planes_of planes.now }
{
    let mut all = Planes::none();
    for p in planes {
        match plane(p) {
            Some(plane) => all.add(plane),
            None => unreachable!(),
        }
    }
    all
}
