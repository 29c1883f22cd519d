//! How far the camera is from a box.

ghost use Rattle.std.specs.Prelude.{◌≡◌, ◌+◌, ◌<◌, ◌≤◌, ◌^◌, ◌≤ℤ◌, unsigned_abs};
ghost use Rattle.mesh_defs.specs.BoundingBox.{gap, squared_distance, distance_of, IsRoot};
ghost use Rattle.cull_marks.specs.Cuboid.{as_box, IsWithinReach};

use crate::Camera;
use crate::root::square_root;
use bintree_addr::Cuboid;
use mesh_defs::roots;

/// The Euclidean distance of the camera to the box, rounded down, in world units; 0 where the camera is in it.
///
/// Cost (not proved): that of a square root.
pub fn distance(c: &Cuboid, camera: &Camera) -> u64
    requires reach { IsWithinReach (2 ^ 24) (as_box c.now) }
    ensures value { result ≡ distance_of (as_box c.now) camera.now }
    ensures root { IsRoot (squared_distance (as_box c.now) camera.now) result }
    ensures bounded { result < 2 ^ 31 }
{
    roots();
    square_root(squared_gaps(c, camera))
}

/// The sum of the squares of the gaps on the three axes.
fn squared_gaps(c: &Cuboid, camera: &Camera) -> u64
    requires { IsWithinReach (2 ^ 24) (as_box c.now) }
    ensures value { result ≡ squared_distance (as_box c.now) camera.now }
    ensures bounded { result < 2 ^ 62 }
{
    let x = gap_to(camera.x(), c.x0, c.x1);
    let y = gap_to(camera.y(), c.y0, c.y1);
    let z = gap_to(camera.z(), c.z0, c.z1);
    x * x + y * y + z * z
}

/// How far a coordinate is from a range: 0 within it, else the distance to the nearer end.
fn gap_to(coordinate: i64, low: i64, high: i64) -> u64
    requires coordinate_size { unsigned_abs coordinate ≤ 2 ^ 30 }
    requires low_reach { unsigned_abs low ≤ 2 ^ 24 }
    requires high_reach { unsigned_abs high ≤ 2 ^ 24 }
    ensures value { result ≡ gap coordinate low high }
    ensures bounded { result ≤ 2 ^ 30 + 2 ^ 24 }
{
    if coordinate < low {
        (low - coordinate).unsigned_abs()
    } else if high < coordinate {
        (coordinate - high).unsigned_abs()
    } else {
        0
    }
}
