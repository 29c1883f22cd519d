//! Certificates of small grids, worked by hand: one that `roam_certify` makes of a view, and verdicts of `fit_certify`
//! on meshes that keep points, also on parts that no file can hold.
//!
//! A reason is an address, a column and a row; a point a column and a row.

ghost use Rattle.std.specs.Prelude.{◌≤◌, ◌^◌, All, IfOk, length};
ghost use Rattle.bintree_laws.specs.Corners.{IsInSquare};
ghost use Rattle.certificate_laws.specs.declared.limits.TheConstants.{MOST_REASONS};

use bintree_addr::{Point, Tri};
use cert_text::Cert;
use fit_certify::{FitCert, FitReject, FitVerdict, KeptCert, MOST_REASONS, Witness, check_kept};
use pgm_grid::Grid;
use roam_certify::make_cert;
use std::alloc::Global;
use std::test::Fail;
use view_priority::Camera;
use wedgie_tree::Wedges;

/// The certificate of the best mesh of 8 triangles of the grid of side 4 with a hill at the lower border. That mesh
/// stops at 17, which needs 9.
fn cert_of_budget(alloc: Global) -> Result<Cert, Fail> {
    let camera = Camera::new(0, 0, 0).ok_or("a camera")?;
    let mut grid = Grid::flat(alloc, 2, 65535)?;
    grid.put(1, 0, 10);
    let wedges = Wedges::build(alloc, grid)?;
    Ok(make_cert(alloc, &wedges, &camera, 1, 8)?)
}

/// Where the camera of a certificate is, whether its leaves are these, and how many reasons it has.
fn parts_of(cert: &Cert, leaves: &[u32]) -> ((i64, i64, i64), bool, usize) {
    let camera = cert.camera();
    let listed = cert.leaves();
    let are_same = listed
        .iter()
        .zip(leaves)
        .all(|(t, number)| t.number() == *number);
    (
        (camera.x(), camera.y(), camera.z()),
        listed.len() == leaves.len() && are_same,
        cert.reasons().len(),
    )
}

#[test]
fn a_certificate_is_made_of_a_budget(rt: HostRuntime) -> Result<(), Fail> {
    let leaves = [16, 17, 9, 10, 22, 23, 6, 7];
    let want = ((0, 0, 0), true, 7);
    assert_eq!(rt; parts_of(&cert_of_budget(rt.alloc())?, &leaves), want);
    Ok(())
}

/// Some points, as rows.
type Rows<'a> = &'a [(u32, u32)];

/// The points of these rows.
fn points(alloc: Global, rows: Rows) -> Result<Vec<Point>, Fail>
    ensures { IfOk result (λ v. length v.items ≤ MOST_REASONS) }
{
    let mut points = Vec::new(alloc);
    for (x, y) in rows {
        points.push(Point { x: *x, y: *y })?;
    }
    if points.len() > MOST_REASONS {
        return Err("not too many points".into());
    }
    Ok(points)
}

/// The points of these rows, which are of the grid of side 2^n.
fn points_on(alloc: Global, n: u32, rows: Rows) -> Result<Vec<Point>, Fail>
    requires in_grid { n ≤ 14 }
    ensures inside { IfOk result (λ v. All (IsInSquare (2 ^ n)) v.items) }
    ensures few { IfOk result (λ v. length v.items ≤ MOST_REASONS) }
{
    let side = 1 << n;
    let mut points = Vec::new(alloc);
    for (x, y) in rows {
        if *x > side || *y > side {
            return Err("points of the grid".into());
        }
        points.push(Point { x: *x, y: *y })?;
    }
    if points.len() > MOST_REASONS {
        return Err("not too many points".into());
    }
    Ok(points)
}

/// The reasons of these rows.
fn reasons(alloc: Global, rows: &[(u32, u32, u32)]) -> Result<Vec<Witness>, Fail>
    ensures { IfOk result (λ v. length v.items ≤ MOST_REASONS) }
{
    let mut reasons = Vec::new(alloc);
    for (address, x, y) in rows {
        let triangle = Tri::new(*address).ok_or("an address")?;
        reasons.push(Witness {
            triangle,
            x: *x,
            y: *y,
        })?;
    }
    if reasons.len() > MOST_REASONS {
        return Err("not too many reasons".into());
    }
    Ok(reasons)
}

/// The points, the tolerance, and the reasons before the mesh and behind it.
type Parts<'a> = (Rows<'a>, u32, &'a [(u32, u32, u32)], &'a [(u32, u32, u32)]);

/// The certificate of these parts.
fn cert_of(alloc: Global, parts: Parts) -> Result<KeptCert, Fail> {
    let (needs, tolerance, needed, beyond) = parts;
    let rest = FitCert::new(tolerance, reasons(alloc, needed)?, reasons(alloc, beyond)?);
    Ok(KeptCert::new(points(alloc, needs)?, rest))
}

/// The verdict on it, for a mesh of this error that keeps these points, over nine points of which the middle one has
/// the height 10: each half is off by 20 there, and no quarter is off.
fn verdict_on(alloc: Global, parts: Parts, tolerance: u32, kept: Rows) -> Result<FitVerdict, Fail> {
    let mut grid = Grid::flat(alloc, 1, 65535)?;
    grid.put(1, 1, 10);
    let cert = cert_of(alloc, parts)?;
    let kept = points_on(alloc, grid.n(), kept)?;
    Ok(check_kept(alloc, &grid, &cert, tolerance, &kept)?)
}

// The middle is the centre of 2 and of 3, and (1, 0) that of 4, which stands on 2. The tests come in this order; a
// reason behind two points is the third.
#[test]
fn certificates_that_keep_points_have_the_verdicts_by_hand(rt: HostRuntime) -> Result<(), Fail> {
    let middle = [(1, 1)];
    let side = [(1, 0)];
    let both = [(1, 1), (1, 0)];
    let corners = [(0, 0), (2, 0), (0, 2), (2, 2)];
    let top = [(2, 1, 1)];
    let first = FitReject::BadReason { index: 1 };
    let second = FitReject::BadReason { index: 2 };
    let third = FitReject::BadReason { index: 3 };
    let cases: [(Parts, u32, Rows, Result<(u32, u32), FitReject>); 17] = [
        ((&[], 20, &[], &[]), 20, &corners, Ok((2, 20))),
        ((&middle, 20, &[], &[]), 20, &middle, Ok((4, 0))),
        ((&side, 20, &[], &[]), 20, &side, Ok((5, 0))),
        ((&[(1, 0), (1, 0)], 20, &[], &[]), 20, &side, Ok((5, 0))),
        ((&side, 20, &[], &[]), 20, &both, Ok((5, 0))),
        ((&[], 0, &top, &[]), 0, &middle, Ok((4, 0))),
        (
            (&both, 20, &[], &[]),
            19,
            &[],
            Err(FitReject::OtherTolerance),
        ),
        ((&side, 20, &[], &[]), 20, &middle, Err(first)),
        ((&both, 20, &[], &[]), 20, &middle, Err(second)),
        ((&[(0, 0)], 20, &[], &[]), 20, &corners, Err(first)),
        ((&[(3, 1)], 20, &[], &[]), 20, &middle, Err(first)),
        ((&[], 0, &[(2, 3, 0)], &[]), 0, &[], Err(first)),
        ((&both, 0, &top, &[]), 0, &both, Err(third)),
        (
            (&[], 19, &[], &top),
            19,
            &middle,
            Err(FitReject::OverTolerance),
        ),
        ((&middle, 20, &[], &top), 20, &side, Err(first)),
        ((&middle, 20, &[], &top), 20, &middle, Err(second)),
        ((&[], 0, &top, &[]), 0, &both, Err(FitReject::TooFewReasons)),
    ];
    for (parts, tolerance, kept, told) in cases {
        let verdict = verdict_on(rt.alloc(), parts, tolerance, kept)?;
        let wanted = match told {
            Ok((triangles, deviation)) => FitVerdict::Certified {
                triangles,
                deviation,
            },
            Err(why) => FitVerdict::Rejected { why },
        };
        assert_eq!(rt; verdict, wanted, "{tolerance} {kept:?}");
    }
    Ok(())
}
