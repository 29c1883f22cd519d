//! The pages of a terrain: kept, found by a triangle, loaded and unloaded.
//!
//! For the loop that follows a camera over a terrain of which only some pages are loaded. The pages stand in one table,
//! a place for each square of each resolution. A triangle's wedge over all that is loaded is found by a walk from the
//! coarsest page down, two bits of its address a step.

#![tactic(auto)]

mod agreement;
mod edits;
mod find;
mod join;
mod load;
mod locate;
mod part;
mod store;
mod table;
mod unload;
mod wedge;

pub use load::LoadFault;
pub use locate::PageTriangle;
pub use page_laws::KnownWedge;
pub use page_wedges::PageWedges;
pub use store::PageStore;
pub use unload::UnloadFault;
