//! The definitions of terrain meshing over a triangle bintree, for every crate above.
//!
//! `specs/` has the words that contracts cite: height fields, triangles and their mates, tilings,
//! closed sets, thickness, boxes, distance, marks, priority, ranking, greedy refinement and the
//! text of a mesh. The code here is `Point`, `Corners`, `Mark`, the limits that several crates keep to, small law functions and the two
//! errors that all crates share. No algorithm of the mesher is here.

#![tactic(auto)]

mod counters;
mod failures;
mod laws;
mod level;
mod limits;
mod mark;
mod point;

pub use counters::{CHANGES_AT_FRAME, LONGEST_WAY, MOST_CHANGES};
pub use failures::{Failed, NoMemory};
pub use laws::{limit_laws, roots, threshold_laws};
pub use level::{GREATEST_FILE_LEVEL, GREATEST_LEVEL};
pub use limits::{
    CAMERA_REACH, GREATEST_ERROR, GREATEST_HEIGHT, GREATEST_NUMBER, GREATEST_OFFSET,
    GREATEST_SLOPE, LEAST_TRIANGLES, MOST_PLANES, MOST_TRIANGLES,
};
pub use mark::Mark;
pub use point::{Corners, Point};
