//! A mesh that follows priorities which depend on where a camera is, from frame to frame.
//!
//! Each triangle that a frame may split or merge keeps a stamp: bounds of its priority, and how far the camera may go
//! until they end. `advance` makes the mesh of one frame by these stamps; where priorities change otherwise, the `expire`
//! calls end the stamps of the triangles concerned. What the priorities are of is the caller's business.

#![tactic(auto)]

mod area;
mod frame;
mod laws;
mod listed;
mod room;
mod turn;
mod walk;

pub use area::{expire_area, expire_each};
pub use frame::advance;
pub use laws::{expiry_laws, sight_laws, still_laws};
pub use listed::expire_listed;
pub use room::leaf_room;
pub use turn::{Boxes, expire_turned};
pub use walk::{Below, Expiring, Expiry, expire_by};
