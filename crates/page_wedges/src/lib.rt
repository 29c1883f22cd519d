//! Thickness, least and greatest height of the triangles of a page.
//!
//! For whoever keeps the pages of a terrain. A page has the triangles of a small grid, moved and not turned, below its
//! four quarters; so two levels below its halves its wedges are those of the grid of its heights. Quarters and halves
//! are joined from the wedges below them, which finer pages have where they are loaded.

#![tactic(auto)]

mod join;
mod laws;
mod page;

pub use join::THICKEST;
pub use laws::terrain_laws;
pub use page::PageWedges;
