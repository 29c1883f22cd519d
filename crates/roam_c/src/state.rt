//! Calls that change what an engine shows.

ghost use Rattle.std.specs.Prelude.{⊤};
ghost use Rattle.roam_embed.specs.Calls.{IsCameraMoved, IsPlaneAdded, ArePlanesCleared, IsBudgetPut, IsHeightPut};
ghost use Rattle.roam_embed.specs.Calls.{IsAreaRaised, IsThresholdPut};
ghost use Rattle.roam_embed.specs.Looking.{ArePlanesPut};
ghost use Rattle.roam_embed.specs.Renewal.{IsEngineRenewed};
ghost use Rattle.roam_c.specs.Handle.{OnFull, OnEmpty};

use crate::handle::{Handle, on};
use roam_embed::{
    PlaneNumbers, add_plane, clear_planes, move_camera, put_budget, put_height, put_planes,
    put_threshold, raise_area, renew_engine,
};
use std::alloc::Global;

/// Puts the camera to a place, in world units.
#[unsafe(no_mangle)]
pub extern "C" fn roam_camera(alloc: Global, h: &mut Handle, x: i64, y: i64, z: i64) -> i32
    ensures full { OnFull h.old.value h.new.value result (λ was now answer.
        IsCameraMoved was now (record { x = x; y = y; z = z }) answer) }
    ensures empty { OnEmpty h.old.value h.new.value result ⊤ }
{
    on!(Engine, h, alloc, |engine| move_camera(engine, x, y, z))
}

/// Takes all planes away.
#[unsafe(no_mangle)]
pub extern "C" fn roam_clear_planes(alloc: Global, h: &mut Handle) -> i32
    ensures full { OnFull h.old.value h.new.value result (λ was now answer.
        ArePlanesCleared was now answer) }
    ensures empty { OnEmpty h.old.value h.new.value result ⊤ }
{
    on!(Engine, h, alloc, |engine| clear_planes(engine))
}

/// Puts one plane more in force. Its inside is where a x + b y + c z + d is at least 0.
#[unsafe(no_mangle)]
pub extern "C" fn roam_add_plane(
    alloc: Global,
    h: &mut Handle,
    a: i64,
    b: i64,
    c: i64,
    d: i64,
) -> i32
    ensures full { OnFull h.old.value h.new.value result (λ was now answer.
        IsPlaneAdded was now (record { a = a; b = b; c = c; d = d }) answer) }
    ensures empty { OnEmpty h.old.value h.new.value result ⊤ }
{
    on!(Engine, h, alloc, |engine| add_plane(engine, a, b, c, d))
}

/// Puts these planes in force in the place of those before.
#[unsafe(no_mangle)]
pub extern "C" fn roam_look(alloc: Global, h: &mut Handle, planes: &[PlaneNumbers]) -> i32
    ensures full { OnFull h.old.value h.new.value result (λ was now answer.
        ArePlanesPut was now planes.now answer) }
    ensures empty { OnEmpty h.old.value h.new.value result ⊤ }
{
    on!(Engine, h, alloc, |engine| put_planes(engine, planes))
}

/// Counts frames from 0 on again.
#[unsafe(no_mangle)]
pub extern "C" fn roam_renew(alloc: Global, h: &mut Handle) -> i32
    ensures full { OnFull h.old.value h.new.value result (λ was now answer.
        IsEngineRenewed was now answer) }
    ensures empty { OnEmpty h.old.value h.new.value result ⊤ }
{
    on!(Engine, h, alloc, |engine| renew_engine(engine))
}

/// Puts another threshold in force.
#[unsafe(no_mangle)]
pub extern "C" fn roam_threshold(alloc: Global, h: &mut Handle, threshold: u64) -> i32
    ensures full { OnFull h.old.value h.new.value result (λ was now answer.
        IsThresholdPut was now threshold answer) }
    ensures empty { OnEmpty h.old.value h.new.value result ⊤ }
{
    on!(Engine, h, alloc, |engine| put_threshold(engine, threshold))
}

/// Puts another budget in force.
#[unsafe(no_mangle)]
pub extern "C" fn roam_budget(alloc: Global, h: &mut Handle, triangles: u32) -> i32
    ensures full { OnFull h.old.value h.new.value result (λ was now answer.
        IsBudgetPut was now triangles answer) }
    ensures empty { OnEmpty h.old.value h.new.value result ⊤ }
{
    on!(Engine, h, alloc, |engine| put_budget(engine, triangles))
}

/// Sets the height of the grid point (x, y).
#[unsafe(no_mangle)]
pub extern "C" fn roam_set(alloc: Global, h: &mut Handle, x: u32, y: u32, height: u16) -> i32
    ensures full { OnFull h.old.value h.new.value result (λ was now answer.
        IsHeightPut was now x y height answer) }
    ensures empty { OnEmpty h.old.value h.new.value result ⊤ }
{
    on!(Engine, h, alloc, |engine| put_height(engine, x, y, height))
}

/// Raises the heights of the columns x0 to x1 and the rows y0 to y1 by dz.
#[unsafe(no_mangle)]
pub extern "C" fn roam_raise(
    alloc: Global,
    h: &mut Handle,
    x0: u32,
    y0: u32,
    x1: u32,
    y1: u32,
    dz: i32,
) -> i32
    ensures full { OnFull h.old.value h.new.value result (λ was now answer.
        IsAreaRaised was now x0 y0 x1 y1 dz answer) }
    ensures empty { OnEmpty h.old.value h.new.value result ⊤ }
{
    on!(
        Engine,
        h,
        alloc,
        |engine| raise_area(engine, x0, y0, x1, y1, dz)
    )
}
