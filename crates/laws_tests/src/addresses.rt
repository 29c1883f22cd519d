//! Addresses with their levels, centres, held points and ranks, against tables worked by hand.

use bintree_addr::{Rank, Tri};
use std::cmp::Ordering;

/// The centre in the grid of side 4.
fn centre_of(number: u32) -> Option<(u32, u32)> {
    let tri = Tri::new(number)?;
    if tri.level() >= 4 {
        return None;
    }
    let centre = tri.centre(2);
    Some((centre.x, centre.y))
}

/// A bit for each point of the grid of side 2 that the triangle holds: 1 << 3 * y + x for (x, y).
fn points_held(number: u32) -> Option<u32> {
    let tri = Tri::new(number)?;
    if tri.level() > 2 {
        return None;
    }
    let mut held = 0;
    for place in 0..9u32 {
        if tri.holds_point(1, place % 3, place / 3) {
            held |= 1 << place;
        }
    }
    Some(held)
}

// What a grid of 2^11 a side has, and what a finer one has.
#[test]
fn addresses_have_these_levels(rt: HostRuntime) {
    let cases = [
        (0, None, None),
        (1, None, None),
        (2, Some(0), Some(0)),
        (3, Some(0), Some(0)),
        (4, Some(1), Some(1)),
        (7, Some(1), Some(1)),
        (8, Some(2), Some(2)),
        (15, Some(2), Some(2)),
        (17, Some(3), Some(3)),
        (8_388_607, Some(21), Some(21)),
        (16_777_215, Some(22), Some(22)),
        (16_777_216, None, Some(23)),
        (1_073_741_823, None, Some(28)),
        (1_073_741_824, None, None),
        (u32::MAX, None, None),
    ];
    for (number, level, deep) in cases {
        assert_eq!(rt; Tri::new(number).map(Tri::level), level, "{number}");
        assert_eq!(rt; Tri::at(number).map(Tri::level), deep, "{number}");
    }
}

#[test]
fn centres_are_midpoints_of_bases(rt: HostRuntime) {
    // The base of the triangle 9 runs from (4, 0) to (2, 2).
    let cases = [
        (2, (2, 2)),
        (3, (2, 2)),
        (4, (2, 0)),
        (5, (0, 2)),
        (6, (2, 4)),
        (7, (4, 2)),
        (8, (1, 1)),
        (9, (3, 1)),
        (17, (1, 0)),
    ];
    for (number, centre) in cases {
        assert_eq!(rt; centre_of(number), Some(centre), "{number}");
    }
}

#[test]
fn grid_points_held_in_the_grid_of_side_two(rt: HostRuntime) {
    // A digit for each grid point: the rows from y = 2 down to y = 0, and in each row from x = 2 to x = 0.
    let cases: [(u32, u32); 14] = [
        (2, 0b001_011_111),
        (3, 0b111_110_100),
        (4, 0b000_010_111),
        (5, 0b001_011_001),
        (6, 0b111_010_000),
        (7, 0b100_110_100),
        (8, 0b000_010_011),
        (9, 0b000_010_110),
        (10, 0b001_011_000),
        (11, 0b000_011_001),
        (12, 0b110_010_000),
        (13, 0b011_010_000),
        (14, 0b000_110_100),
        (15, 0b100_110_000),
    ];
    for (number, held) in cases {
        assert_eq!(rt; points_held(number), Some(held), "{number}");
    }
}

/// How two ranks compare, whether the first goes before, and whether they are equal.
fn compared(first: (u64, u32), second: (u64, u32)) -> Option<(Ordering, bool, bool)> {
    let one = Rank {
        p: first.0,
        tri: Tri::new(first.1)?,
    };
    let other = Rank {
        p: second.0,
        tri: Tri::new(second.1)?,
    };
    Some((one.cmp(&other), one.ranks_before(&other), one == other))
}

#[test]
fn greater_priority_and_then_lesser_address_come_first(rt: HostRuntime) {
    let cases = [
        ((5, 9), (4, 2), (Ordering::Less, true, false)),
        ((4, 2), (5, 9), (Ordering::Greater, false, false)),
        ((7, 4), (7, 5), (Ordering::Less, true, false)),
        ((7, 5), (7, 4), (Ordering::Greater, false, false)),
        ((7, 4), (7, 4), (Ordering::Equal, false, true)),
    ];
    for (first, second, wanted) in cases {
        assert_eq!(rt; compared(first, second), Some(wanted));
    }
}
