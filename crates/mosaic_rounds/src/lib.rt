//! The bookkeeping of a terrain of many tiles that are fitted one by one, in rounds.
//!
//! `Rounds` keeps of each tile which border points are vertices of its mesh, and whether its centre is: a bit each. It
//! tells which tile has to be fitted next, which triangles have to be split there since the neighbours' meshes have the
//! same points, and when none is left: then the tiles' meshes are one mesh without cracks. Any number of workers may
//! fit tiles, late or twice. How a tile is fitted is the business of `fit_mesh`, and what it is all worth of
//! `mosaic_laws`.

#![tactic(auto)]

mod asked;
mod bits;
mod border;
mod border_points;
mod kept;
mod mark;
mod place;
mod rounds;
mod shape;
mod side;
mod turn;

pub use border_points::BorderPoints;
pub use mesh_defs::{NoMemory, Point};
pub use place::place_of_centre;
pub use rounds::{Rounds, Shrunk};
pub use shape::{MOST_ACROSS, limit_laws};
