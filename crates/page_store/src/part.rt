//! The quarter of a square that a triangle lies in.

ghost use Rattle.std.specs.Prelude.{◌≡◌, ◌+◌, ◌*◌, ◌/◌, ◌%◌, ◌^◌, ◌<◌};
ghost use Rattle.mosaic_laws.specs.Glue.{quarter_in, square_in};

use mesh_defs::Point;

/// A quarter of a square.
#[derive(Clone, Copy, Debug, PartialEq, Eq)]
pub(crate) struct Part {
    /// The column and the row of the square.
    pub(crate) square: Point,
    /// The quarter, from the lower one (0) clockwise.
    pub(crate) quarter: u32,
}

impl Part {
    /// The quarter of a quadrant, by the two bits that its address has more.
    pub(crate) fn below(self, bits: u32) -> Part
        requires quarter { self.quarter < 4 }
        requires bits { bits < 4 }
        requires column { self.square.x < 2 ^ 31 }
        requires row { self.square.y < 2 ^ 31 }
        ensures quarter { result.quarter ≡ quarter_in self.quarter bits }
        ensures column { result.square.x ≡ 2 * self.square.x + (square_in self.quarter (bits / 2)).x }
        ensures row { result.square.y ≡ 2 * self.square.y + (square_in self.quarter (bits / 2)).y }
    {
        let quadrant = quadrant_of(self.quarter, bits / 2);
        Part {
            square: Point {
                x: 2 * self.square.x + quadrant.x,
                y: 2 * self.square.y + quadrant.y,
            },
            quarter: quarter_below(self.quarter, bits),
        }
    }
}

/// The quadrant of a child of a quarter, the left (0) or the right one (1).
fn quadrant_of(quarter: u32, child: u32) -> Point
    requires quarter { quarter < 4 }
    requires child { child < 2 }
    ensures value { result ≡ square_in quarter child }
    ensures column { result.x < 2 }
    ensures row { result.y < 2 }
{
    let (x, y) = match (quarter, child) {
        (0, 0) => (0, 0),
        (0, _) => (1, 0),
        (1, 0) => (0, 1),
        (1, _) => (0, 0),
        (2, 0) => (1, 1),
        (2, _) => (0, 1),
        (_, 0) => (1, 0),
        (_, _) => (1, 1),
    };
    Point { x, y }
}

/// Which quarter of its quadrant a grandchild of a quarter is.
fn quarter_below(quarter: u32, bits: u32) -> u32
    requires quarter { quarter < 4 }
    requires bits { bits < 4 }
    ensures value { result ≡ quarter_in quarter bits }
{
    match bits {
        0 => (quarter + 3) % 4,
        1 | 2 => quarter,
        _ => (quarter + 1) % 4,
    }
}
