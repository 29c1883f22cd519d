//! The engine for C: a handle that owns an engine, a fitter, the bookkeeping of a terrain of tiles, a page or a world of
//! pages, or is empty, and a function for each call of `roam.h`.
//!
//! Each function takes what is kept out of the handle, makes one call of `roam_embed` or `world_embed`, puts it back, and answers the
//! number of that call's answer. None has a `requires`, so no argument that C may pass breaks a rule.
//! What C owes for its pointers stands in the head of `roam.h`. Only the calls that fill a handle take memory for good.

#![tactic(auto)]

mod draws;
mod fitter;
mod found;
mod handle;
mod heights;
mod kept;
mod life;
mod lists;
mod mark;
mod mosaics;
mod paging;
mod shapes;
mod state;
mod told;
mod worlds;

pub use draws::roam_world_draws;
pub use fitter::{
    roam_fit_with, roam_fitter_border, roam_fitter_close, roam_fitter_deviation, roam_fitter_fit,
    roam_fitter_indices, roam_fitter_leaves, roam_fitter_more, roam_fitter_open,
    roam_fitter_restore, roam_tin,
};
pub use found::{roam_certificate, roam_fit};
pub use handle::{Handle, crossing};
pub use heights::{roam_page_raise, roam_page_set_height, roam_world_raise, roam_world_set_height};
pub use kept::Kept;
pub use life::{roam_close, roam_open};
pub use lists::{roam_changed, roam_changes, roam_indices, roam_leaves};
pub use mesh_arrays::Changes;
pub use mosaics::{
    roam_mosaic_close, roam_mosaic_next, roam_mosaic_open, roam_mosaic_put, roam_mosaic_required,
};
pub use paging::{roam_world_load, roam_world_unload};
pub use roam_embed::{Deviation, Fitted, Frame, Mosaic, PlaneNumbers, Required, Standing, Tile};
pub use shapes::{roam_compact, roam_deviation, roam_positions, roam_strip};
pub use state::{
    roam_add_plane, roam_budget, roam_camera, roam_clear_planes, roam_look, roam_raise, roam_renew,
    roam_set, roam_threshold,
};
pub use told::{roam_frame, roam_state};
pub use world_embed::{Draw, Page, World, WorldFrame};
pub use worlds::{
    roam_page_drop, roam_page_make, roam_world_budget, roam_world_camera, roam_world_close,
    roam_world_frame, roam_world_leaves, roam_world_look, roam_world_open, roam_world_threshold,
};
