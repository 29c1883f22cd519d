//! Worlds of pages for callers whom nobody checks: each call tests its arguments, and answers what is wrong with them.
//!
//! As `roam_embed`, whose answers these calls give, over `World` in the place of `Engine`: no function has a `requires`,
//! an `Answer` other than `Done` leaves the world and the caller's arrays as they were, and of several causes the one
//! with the least number is told. A crate of its own, so that engines, fits and mosaics are proved beside `world_loop`.

#![tactic(auto)]

mod draws;
mod ground;
mod notes;
mod page;
mod world;

pub use draws::tell_world_draws;
pub use ground::{raise_page, raise_world, set_page_height, set_world_height};
pub use notes::WorldFrame;
pub use page::{Page, make_page};
pub use world::{
    load_page, make_world_frame, move_world_camera, open_world, put_world_budget, put_world_planes,
    put_world_threshold, tell_world_leaves, unload_page,
};
pub use world_loop::{Draw, World};
