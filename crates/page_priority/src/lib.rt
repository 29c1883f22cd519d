//! Priorities over what is loaded of a terrain of pages.
//!
//! For the loop that keeps one mesh over such a terrain. An open triangle has the priority of its thickness and its box
//! over what is known, and any other triangle has 0; so priorities fall, and a frame by them splits only what is open.
//! While the camera moves they stay between the bounds of a reading, as those of a grid do.

#![tactic(auto)]

mod gauge;
mod laws;
mod reach;
mod scene;
mod viewpoint;

pub use gauge::LoadedGauge;
pub use laws::{loaded_laws, nesting_laws};
pub use reach::LONGEST_SLACK;
pub use scene::LoadedScene;
pub use viewpoint::Viewpoint;
