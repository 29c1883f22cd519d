//! Marks of boxes by `cull_marks`, worked by hand and beside those of their corners, and the greatest numbers.

ghost use Rattle.std.specs.Prelude.{◌≤◌, ◌^◌};
ghost use Rattle.cull_marks.specs.Cuboid.{as_box, IsWithinReach};

use cull_marks::{Cuboid, Mark, Plane, Planes};

/// The box of both halves of the grid of side 2 whose middle has height 10, at spacing 1.
const BASE: Cuboid = Cuboid {
    x0: 0,
    x1: 2,
    y0: 0,
    y1: 2,
    z0: 0,
    z1: 10,
};

/// The largest box.
const REACH: Cuboid = Cuboid {
    x0: -16777216,
    x1: 16777216,
    y0: -16777216,
    y1: 16777216,
    z0: -16777216,
    z1: 16777216,
};

/// The slopes of a plane along x, y and z, and its offset.
type Slopes = (i64, i64, i64, i64);

/// The mark of a box under these planes.
fn mark_under(cuboid: &Cuboid, slopes: &[Slopes]) -> Option<Mark>
    requires { IsWithinReach (2 ^ 24) (as_box cuboid.now) }
{
    let mut planes = Planes::none();
    for (a, b, c, d) in slopes {
        if planes.len() >= 6 {
            return None;
        }
        planes.add(Plane::new(*a, *b, *c, *d)?);
    }
    Some(planes.mark(cuboid))
}

/// The mark of a box under one plane by all its eight corners: the plain form of `mark`. A corner has the upper end
/// along x, y and z where the bit of 1, 2 and 4 is set.
fn mark_by_corners(slopes: Slopes, cuboid: &Cuboid) -> Mark {
    let (a, b, c, d) = slopes;
    let mut outside = 0u32;
    for corner in 0u32..8 {
        let x = if corner & 1 == 0 {
            cuboid.x0
        } else {
            cuboid.x1
        };
        let y = if corner & 2 == 0 {
            cuboid.y0
        } else {
            cuboid.y1
        };
        let z = if corner & 4 == 0 {
            cuboid.z0
        } else {
            cuboid.z1
        };
        let across = a.wrapping_mul(x).wrapping_add(b.wrapping_mul(y));
        if across.wrapping_add(c.wrapping_mul(z)).wrapping_add(d) < 0 {
            outside = outside.saturating_add(1);
        }
    }
    match outside {
        0 => Mark::Inside,
        8 => Mark::Outside,
        _ => Mark::Cut,
    }
}

#[test]
fn a_plane_marks_by_the_corners_and_the_worst_of_all_planes_counts(rt: HostRuntime) {
    let cases = [
        (1, 0, 0, -3, Mark::Outside),
        (1, 0, 0, -2, Mark::Cut),
        (1, 0, 0, 0, Mark::Inside),
        (-1, 0, 0, 1, Mark::Cut),
        (-1, 0, 0, -1, Mark::Outside),
        (0, 1, 0, -2, Mark::Cut),
        (0, -1, 0, 2, Mark::Inside),
        (0, 0, -1, 9, Mark::Cut),
        (0, 0, 1, -11, Mark::Outside),
        (1, -1, 0, 0, Mark::Cut),
        (1, 1, 1, -14, Mark::Cut),
    ];
    for (a, b, c, d, mark) in cases {
        let slopes = (a, b, c, d);
        let found = (mark_under(&BASE, &[slopes]), mark_by_corners(slopes, &BASE));
        assert_eq!(rt; found, (Some(mark), mark), "{slopes:?}");
    }
    let four = [(1, 0, 0, 0), (0, 0, 1, -5), (1, 0, 0, -3), (0, 1, 0, 0)];
    assert_eq!(rt; mark_under(&BASE, &[]), Some(Mark::Inside));
    assert_eq!(rt; mark_under(&BASE, &four[..2]), Some(Mark::Cut));
    assert_eq!(rt; mark_under(&BASE, &four), Some(Mark::Outside));
    let (slope, offset) = (1 << 20, 1 << 50);
    for (a, b, c, d) in [
        (slope + 1, 0, 0, 0),
        (0, -slope - 1, 0, 0),
        (0, 0, slope + 1, 0),
        (0, 0, 0, -offset - 1),
    ] {
        assert!(rt; Plane::new(a, b, c, d).is_none());
    }
    let greatest = [
        (slope, slope, slope, offset),
        (-slope, slope, -slope, -offset),
    ];
    assert_eq!(rt; mark_under(&REACH, &greatest[..1]), Some(Mark::Inside));
    assert_eq!(rt; mark_under(&REACH, &greatest), Some(Mark::Outside));
}
