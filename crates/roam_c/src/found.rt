//! The mesh of the heights alone, and the certificate of a best mesh.

ghost use Rattle.std.specs.Prelude.{◌≡◌};
ghost use Rattle.roam_embed.specs.Fitting.{IsFitTold};
ghost use Rattle.roam_embed.specs.Certificates.{IsCertificateTold};
ghost use Rattle.roam_c.specs.Handle.{OnFull, OnEmpty};

use crate::handle::{Handle, on};
use roam_embed::{Fitted, tell_certificate, tell_fit};
use std::alloc::Global;

/// Writes three indices of heights for each triangle of the mesh for a tolerance, whatever the view, and tells of it.
#[unsafe(no_mangle)]
pub extern "C" fn roam_fit(
    alloc: Global,
    h: &mut Handle,
    thousandths: u32,
    budget: u32,
    out: &mut [u32],
    told: &mut Fitted,
) -> i32
    ensures full { OnFull h.old.value h.new.value result (λ was now answer. (now ≡ was)
        × IsFitTold was.state.grid thousandths budget out.old out.new told.old told.new answer) }
    ensures empty { OnEmpty h.old.value h.new.value result
        ((out.new ≡ out.old) × (told.new ≡ told.old)) }
{
    on!(
        Engine,
        h,
        alloc,
        |engine| tell_fit(alloc, engine, thousandths, budget, out, told)
    )
}

/// Writes the certificate of the best mesh from a place, as text, and how many bytes it has.
#[unsafe(no_mangle)]
pub extern "C" fn roam_certificate(
    alloc: Global,
    h: &mut Handle,
    x: i64,
    y: i64,
    z: i64,
    out: &mut [u8],
    count: &mut usize,
) -> i32
    ensures full { OnFull h.old.value h.new.value result (λ was now answer. (now ≡ was)
        × IsCertificateTold was.state (record { x = x; y = y; z = z })
        out.old out.new count.old count.new answer) }
    ensures empty { OnEmpty h.old.value h.new.value result
        ((out.new ≡ out.old) × (count.new ≡ count.old)) }
{
    on!(
        Engine,
        h,
        alloc,
        |engine| tell_certificate(alloc, engine, x, y, z, out, count)
    )
}
