//! The engine for callers whom nobody checks: each call tests its arguments, and answers what is wrong with them.
//!
//! For programs in other languages, which see it through `roam_c`. No function has a `requires`. What an `Engine`
//! requires of its caller is tested here; an `Answer` other than `Done` leaves the engine and the caller's arrays as
//! they were. Where several causes hold, the answer is the one with the least number; out of memory comes last.

#![tactic(auto)]

mod answer;
mod asked;
mod border;
mod bytes;
mod certificate;
mod changed;
mod fitted;
mod fitter;
mod fitting;
mod frames;
mod ground;
mod laws;
mod looking;
mod make;
mod mesh;
mod mosaic;
mod notes;
mod renewal;
mod shapes;
mod tins;
mod view;

pub use answer::Answer;
pub use certificate::tell_certificate;
pub use changed::tell_changes;
pub use fitted::tell_fit_with;
pub use fitter::{
    Fitter, fit_points, open_fitter, refine_points, restore_mesh, tell_border,
    tell_fitter_deviation, tell_fitter_indices, tell_fitter_leaves,
};
pub use fitting::{GREATEST_TOLERANCE, tell_fit};
pub use frame_loop::MOST_FRAMES;
pub use frames::{make_frame, tell_standing};
pub use ground::{GREATEST_CHANGE, put_height, raise_area};
pub use laws::{compact_laws, limit_laws, room_laws};
pub use looking::{are_planes, made_planes, put_planes};
pub use make::{level_of_count, open_engine};
pub use mesh::{put_addresses, tell_indices, tell_leaves};
pub use mosaic::{Mosaic, next_tile, open_mosaic, put_tile, tell_required};
pub use notes::{Deviation, Fitted, Frame, PlaneNumbers, Required, Standing, Tile};
pub use renewal::renew_engine;
pub use shapes::{tell_compact, tell_deviation, tell_positions, tell_strip};
pub use tins::tell_tin;
pub use view::{
    LONGEST_WAY, MOST_PLANES, add_plane, clear_planes, move_camera, put_budget, put_threshold,
};
