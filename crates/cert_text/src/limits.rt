//! The greatest sizes of a certificate.

use mesh_defs::MOST_TRIANGLES;

/// The most triangles of a certificate: those of a mesh.
pub const MOST_LEAVES: usize = MOST_TRIANGLES as usize;

/// The most reasons of a certificate. One fewer than the budget are enough; the rest is room for other makers.
pub const MOST_REASONS: usize = 1_100_000;
