//! How far a triangle is from the heights of the ground.

use crate::ground::Ground;
use crate::network::{Place, turn};
use crate::numbers::{Num, as_index, floor, num, size, whole};

/// An edge's column, row by row.
#[derive(Clone, Copy)]
struct Side {
    x: Num,
    whole: Num,
    rest: Num,
    over: Num,
    height: Num,
}

impl Side {
    /// The side from a point to a lower one; columns are rounded up or down.
    fn new(a: Place, b: Place, up: bool) -> Side {
        let height = b.y - a.y;
        if height.0 <= 0 {
            return Side {
                x: a.x,
                whole: num(0),
                rest: num(0),
                over: num(0),
                height: num(1),
            };
        }
        let part = floor(b.x - a.x, height);
        let rest = b.x - a.x - part * height;
        let over = if up { height - num(1) } else { num(0) };
        Side {
            x: a.x,
            whole: part,
            rest,
            over,
            height,
        }
    }

    /// Goes on to the next row.
    #[inline]
    fn step(&mut self) {
        self.x += self.whole;
        self.over += self.rest;
        if self.over >= self.height {
            self.over -= self.height;
            self.x += num(1);
        }
    }
}

/// What a triangle is tested by.
#[derive(Drop)]
struct Plane {
    double: Num,
    right: Num,
    down: Num,
    from: Place,
    limit: Num,
    shift: u32,
    is_small: bool,
}

/// The sum of the penalties of a row of heights; none where one is too far off.
#[inline]
fn row_cost(row: &[u16], plane: &Plane, start: Num) -> Option<u64> {
    if plane.is_small {
        small_row_cost(row, plane, start)
    } else {
        wide_row_cost(row, plane, start)
    }
}

/// The same, where a height times the double area may be large.
fn wide_row_cost(row: &[u16], plane: &Plane, start: Num) -> Option<u64> {
    let mut value = start;
    let mut most: u64 = 0;
    let mut sum: u64 = 0;
    for height in row {
        let off = (plane.double * whole(u32::from(*height)) - value)
            .0
            .unsigned_abs();
        most = most.max(off);
        let part = (off >> (plane.shift & 63)) & 0xff;
        let second = part.wrapping_mul(part);
        let fourth = second.wrapping_mul(second) >> 16;
        sum = sum.wrapping_add(fourth.wrapping_mul(fourth) >> 8);
        value += plane.right;
    }
    if most <= plane.limit.0.unsigned_abs() {
        Some(sum)
    } else {
        None
    }
}

/// The same, where all fits half as many bits.
fn small_row_cost(row: &[u16], plane: &Plane, start: Num) -> Option<u64> {
    let double = low_half(plane.double);
    let right = low_half(plane.right);
    let shift = plane.shift & 31;
    let mut value = low_half(start);
    let mut most: u32 = 0;
    let mut sum: u32 = 0;
    for height in row {
        let off = double
            .wrapping_mul(u32::from(*height))
            .wrapping_sub(value)
            .min(value.wrapping_sub(double.wrapping_mul(u32::from(*height))));
        most = most.max(off);
        let part = (off >> shift) & 0xff;
        let second = part.wrapping_mul(part);
        let fourth = second.wrapping_mul(second) >> 16;
        sum = sum.wrapping_add(fourth.wrapping_mul(fourth) >> 8);
        value = value.wrapping_add(right);
    }
    if u64::from(most) <= plane.limit.0.unsigned_abs() {
        Some(u64::from(sum))
    } else {
        None
    }
}

/// The lower half of a number's bits.
#[inline]
fn low_half(a: Num) -> u32 {
    (a.0 & 0xffff_ffff) as u32
}

/// By how many bits a limit has to be shifted to fit eight.
fn shift_for(limit: Num) -> u32 {
    let mut rest = limit.0.unsigned_abs();
    let mut shift: u32 = 0;
    for _ in 0..60 {
        if rest < 256 {
            return shift;
        }
        rest >>= 1;
        shift = shift.wrapping_add(1);
    }
    63
}

/// A sum of eighth powers of parts of a limit of eight bits, in a measure that all triangles share.
fn leveled(sum: u64, limit: Num, shift: u32) -> u64 {
    let top = (limit.0.unsigned_abs() >> (shift & 63)).max(1) & 0xff;
    let second = top.wrapping_mul(top);
    let fourth = (second.wrapping_mul(second) >> 16).max(1);
    let eighth = (fourth.wrapping_mul(fourth) >> 8).max(1);
    sum.min(0xffff_ffff_ffff).wrapping_mul(0x4000) / (eighth >> 8).max(1)
}

impl Plane {
    /// That of three points; none where they do not turn left.
    fn of(ground: &Ground<'_>, a: Place, b: Place, c: Place) -> Option<Plane> {
        let double = turn(a, b, c);
        if double.0 <= 0 {
            return None;
        }
        let limit = floor(double * whole(ground.thousandths), num(1000));
        Some(Plane {
            double,
            right: (b.z - a.z) * (c.y - a.y) - (c.z - a.z) * (b.y - a.y),
            down: (c.z - a.z) * (b.x - a.x) - (b.z - a.z) * (c.x - a.x),
            from: a,
            limit,
            shift: shift_for(limit) & 63,
            is_small: double.0 < 0x4000,
        })
    }

    /// Its height at a column and a row, times twice the area.
    #[inline]
    fn at(&self, x: Num, row: u32) -> Num {
        self.from.z * self.double
            + self.right * (x - self.from.x)
            + self.down * (whole(row) - self.from.y)
    }
}

/// The penalty of a triangle: that of each of its grid points, and that of its shape. None where it does not turn left, or
/// a point is too far off.
pub fn triangle_cost(ground: &Ground<'_>, a: Place, b: Place, c: Place) -> Option<u64> {
    let plane = Plane::of(ground, a, b, c)?;
    if plane.double.0 >= 64 && is_far_amid(ground, &plane, a, b, c) {
        return None;
    }
    let sum = rows_cost(ground, &plane, Rows::of(a, b, c))?;
    let shape = shape_cost(a, b, c, plane.double);
    Some(leveled(sum, plane.limit, plane.shift).saturating_add(shape))
}

/// The penalty of a slender triangle: 3 % of that of a point at the limit, times the square of what the ratio of its
/// longest edge's square and twice its area has above 2.
fn shape_cost(a: Place, b: Place, c: Place, double: Num) -> u64 {
    let longest = way(a, b).max(way(b, c)).max(way(c, a));
    let ratio = floor(longest * num(256), double) - num(512);
    if ratio.0 <= 0 {
        return 0;
    }
    let above = ratio.0.unsigned_abs().min(0xf_ffff);
    above.wrapping_mul(above).wrapping_mul(2)
}

/// The square of the way between two points in plan.
#[inline]
fn way(a: Place, b: Place) -> Num {
    (b.x - a.x) * (b.x - a.x) + (b.y - a.y) * (b.y - a.y)
}

/// Whether the point amid a triangle is too far off.
fn is_far_amid(ground: &Ground<'_>, plane: &Plane, a: Place, b: Place, c: Place) -> bool {
    let x = floor(a.x + b.x + c.x, num(3));
    let y = floor(a.y + b.y + c.y, num(3));
    let amid = Place { x, y, z: num(0) };
    if turn(a, b, amid).0 < 0 || turn(b, c, amid).0 < 0 || turn(c, a, amid).0 < 0 {
        return false;
    }
    let off = plane.double * ground.height(as_index(x), as_index(y)) - plane.at(x, as_index(y));
    size(off) > plane.limit
}

/// Three points by their rows.
fn sorted(a: Place, b: Place, c: Place) -> [Place; 3] {
    let (low, high) = if b.y < a.y { (b, a) } else { (a, b) };
    if c.y < low.y {
        [c, low, high]
    } else if c.y < high.y {
        [low, c, high]
    } else {
        [low, high, c]
    }
}

/// The rows of a triangle, from the least on.
#[derive(Drop)]
struct Rows {
    long: Side,
    short: Side,
    /// The side that follows the short one, from this row on.
    below: Side,
    middle: u32,
    long_left: bool,
    row: u32,
    last: u32,
}

/// Grid points of a row that a triangle holds: the row, the first column, and how many there may be.
#[derive(Clone, Copy)]
struct Held {
    row: u32,
    left: Num,
    count: Num,
}

impl Rows {
    /// Those of three points.
    fn of(a: Place, b: Place, c: Place) -> Rows {
        let [a, b, c] = sorted(a, b, c);
        let long_left = turn(a, b, c).0 > 0;
        let below = Side::new(b, c, !long_left);
        let middle = as_index(b.y);
        Rows {
            long: Side::new(a, c, long_left),
            short: if a.y == b.y {
                below
            } else {
                Side::new(a, b, !long_left)
            },
            below,
            middle,
            long_left,
            row: as_index(a.y),
            last: as_index(c.y),
        }
    }

    /// The next row.
    #[inline]
    fn next(&mut self) -> Option<Held> {
        if self.last < self.row {
            return None;
        }
        let (left, end) = if self.long_left {
            (self.long.x, self.short.x)
        } else {
            (self.short.x, self.long.x)
        };
        let held = Held {
            row: self.row,
            left,
            count: end - left + num(1),
        };
        self.long.step();
        self.short.step();
        self.row = self.row.wrapping_add(1);
        if self.row == self.middle {
            self.short = self.below;
        }
        Some(held)
    }
}

/// The sum of the penalties of all rows.
fn rows_cost(ground: &Ground<'_>, plane: &Plane, mut rows: Rows) -> Option<u64> {
    let mut sum: u64 = 0;
    for _ in 0..u32::MAX {
        let Some(held) = rows.next() else {
            break;
        };
        if held.count.0 > 0 {
            let row = ground.row(as_index(held.left), held.row, as_index(held.count));
            sum = sum.wrapping_add(row_cost(row, plane, plane.at(held.left, held.row))?);
        }
    }
    Some(sum)
}

/// The grid point of a triangle that is farthest from it; none where it does not turn left.
pub fn worst_point(ground: &Ground<'_>, a: Place, b: Place, c: Place) -> Option<Place> {
    let plane = Plane::of(ground, a, b, c)?;
    let mut rows = Rows::of(a, b, c);
    let mut worst = (num(-1), a);
    for _ in 0..u32::MAX {
        let Some(held) = rows.next() else {
            break;
        };
        for step in 0..as_index(held.count.max(num(0))) {
            let x = held.left + whole(step);
            let z = ground.height(as_index(x), held.row);
            let off = size(plane.double * z - plane.at(x, held.row));
            if off > worst.0 {
                worst = (
                    off,
                    Place {
                        x,
                        y: whole(held.row),
                        z,
                    },
                );
            }
        }
    }
    Some(worst.1)
}
