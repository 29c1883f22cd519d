//! A point as the mean of a triangle's corners.

ghost use Rattle.std.specs.Prelude.{◌≡◌, ◌+◌, ◌-◌, ◌*◌, ◌≤◌, ◌<◌, ◌^◌, ◌↔◌, IsTrue};

/// How much of a point lies at each corner of a triangle, in parts of their sum.
#[derive(Clone, Copy)]
pub(crate) struct Weights {
    pub(crate) apex: u32,
    pub(crate) v0: u32,
    pub(crate) v1: u32,
}

impl Weights {
    /// Whether the point is the midpoint of the base.
    pub(crate) fn is_centre(self) -> bool
        ensures { IsTrue result ↔ ((self.apex ≡ 0) × (self.v0 ≡ self.v1)) }
    {
        self.apex == 0 && self.v0 == self.v1
    }

    /// How much of it lies at the corners of the left child.
    pub(crate) fn left(self) -> Self
        requires nearer { self.v1 ≤ self.v0 }
        requires small { 2 * self.v1 < 2 ^ 32 }
        ensures apex { result.apex ≡ 2 * self.v1 }
        ensures v0 { result.v0 ≡ self.apex }
        ensures v1 { result.v1 ≡ self.v0 - self.v1 }
    {
        Weights {
            apex: 2 * self.v1,
            v0: self.apex,
            v1: self.v0 - self.v1,
        }
    }

    /// How much of it lies at the corners of the right child.
    pub(crate) fn right(self) -> Self
        requires nearer { self.v0 ≤ self.v1 }
        requires small { 2 * self.v0 < 2 ^ 32 }
        ensures apex { result.apex ≡ 2 * self.v0 }
        ensures v0 { result.v0 ≡ self.v1 - self.v0 }
        ensures v1 { result.v1 ≡ self.apex }
    {
        Weights {
            apex: 2 * self.v0,
            v0: self.v1 - self.v0,
            v1: self.apex,
        }
    }
}
