//! Two ranks of one triangle.

use bintree_addr::Rank;

/// Between what a triangle's rank stays while the camera moves by no more than a slack.
#[derive(Clone, Copy, Debug, PartialEq, Eq)]
pub struct Bounds {
    /// The rank at the distance less the slack: the triangle ranks no earlier.
    pub hi: Rank,
    /// The rank at the distance plus the slack: the triangle ranks no later.
    pub lo: Rank,
}
