//! Vectors of samples, lane by lane.

ghost use Rattle.std.specs.Prelude.{◌≡◌, min, max};
ghost use Rattle.std.specs.Simd.Lanes.{zip2};

use std::simd::prelude::*;

/// The lesser sample of each lane.
#[inline(always)]
pub(crate) fn lesser(a: u16x8, b: u16x8) -> u16x8
    ensures { result ≡ zip2 min a b }
{
    a.simd_min(b)
}

/// The greater sample of each lane.
#[inline(always)]
pub(crate) fn greater(a: u16x8, b: u16x8) -> u16x8
    ensures { result ≡ zip2 max a b }
{
    a.simd_max(b)
}
