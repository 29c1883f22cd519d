//! The triangles whose centres grid points are, worked by hand.

use address_flags::centred_at;
use bintree_addr::{Point, Tri};
use std::test::Fail;

/// The address of the triangle of a point in the grid of side 2 or 4, or 0.
fn address(n: u32, x: u32, y: u32) -> Result<u32, Fail> {
    let side = if n == 1 { 2 } else { 4 };
    if x > side || y > side {
        return Err("a point of the grid".into());
    }
    let found = if n == 1 {
        centred_at(1, Point { x, y })
    } else {
        centred_at(2, Point { x, y })
    };
    Ok(found.map_or(0, Tri::number))
}

// The middle of side 2 lies on the base of 2, and of its mate 3. In side 4 are 8 and 11 mates, as are 9 and 14, and 10
// and 13; 17 has the left half of the lower side as its base.
#[test]
fn points_have_their_triangles(rt: HostRuntime) -> Result<(), Fail> {
    let rows: [(u32, u32, u32, u32); 17] = [
        (1, 0, 0, 0),
        (1, 1, 0, 4),
        (1, 2, 0, 0),
        (1, 0, 1, 5),
        (1, 1, 1, 2),
        (1, 2, 1, 7),
        (1, 0, 2, 0),
        (1, 1, 2, 6),
        (1, 2, 2, 0),
        (2, 2, 2, 2),
        (2, 2, 0, 4),
        (2, 0, 2, 5),
        (2, 1, 1, 8),
        (2, 3, 1, 9),
        (2, 1, 3, 10),
        (2, 1, 0, 17),
        (2, 4, 4, 0),
    ];
    for (n, x, y, want) in rows {
        assert_eq!(rt; address(n, x, y)?, want, "{n} {x} {y}");
    }
    Ok(())
}
