//! The greatest size of a certificate.

/// The most reasons before the mesh, and the most behind it: no grid in a file has so many triangles that may be split,
/// and each reason is of another one.
pub const MOST_REASONS: usize = 8_388_608;
