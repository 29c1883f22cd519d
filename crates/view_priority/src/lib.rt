//! Priorities of triangles: how much each needs to be split, seen from the camera.
//!
//! A `Scene` is all that priorities depend on; an `Outlook` owns one and changes it. The distance from the `Camera`
//! to a triangle's box and the triangle's thickness give its priority, which is 0 for what the view planes leave out.
//! `Scene::rank` answers it with the triangle, `Scene::bounds` two bounds that hold while the camera moves by no more
//! than a slack; a `Meter` counts both. `rank` and `bounds` are the same for a caller that makes no scene.
//! Queues and the choice of triangles are the business of the crates above.

#![tactic(auto)]

mod camera;
mod evaluation;
mod factors;
mod gap;
mod laws;
mod meter;
mod outlook;
mod ranks;
mod ratio;
mod root;
mod scene;

pub use camera::Camera;
pub use evaluation::{bounds, bounds_by_part, rank};
pub use factors::Factors;
pub use gap::distance;
pub use laws::{box_laws, distance_laws, priority_laws, view_laws};
pub use meter::Meter;
pub use outlook::Outlook;
pub use ranks::Bounds;
pub use ratio::priority;
pub use scene::Scene;
