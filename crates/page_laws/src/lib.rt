//! Laws of a terrain of pages: what a mesh may split where not all heights are loaded.
//!
//! A law crate: definitions and lemmas, and no code that runs. One mesh covers the whole terrain; heights are in pages
//! of several resolutions, each a tile of the terrain's triangle tree. A triangle is known where a loaded page has its
//! centre, and open if it is in the greatest closed set of known ones. Priorities that are 0 outside of the open set
//! still fall, and a frame by them splits only what is open, so that each vertex has a height.

#![tactic(auto)]

mod areas;
mod changes;
mod finding;
mod opening;
mod pyramids;
mod squares;
mod surfaces;
mod wedge;

pub use areas::area_laws;
pub use changes::change_laws;
pub use finding::{finding_laws, height_laws};
pub use opening::open_laws;
pub use pyramids::pyramid_laws;
pub use squares::{point_laws, square_laws};
pub use surfaces::{page_wedge_laws, surface_laws, wedge_laws};
pub use wedge::KnownWedge;
