//! The queue of diamonds that may be merged: it knows the one that ranks last.
//!
//! A contract sees the list of each slot's rank, `None` where the slot has no entry. The queue is an
//! addressable heap whose order is turned round; which diamonds stand in it is the caller's care.
//! The entry of a diamond stands under the slot of its chief, the member of the lesser address.

#![tactic(auto)]

mod diamond;
mod queue;

pub use bintree_addr::{Rank, Slot};
pub use diamond::chief;
pub use mesh_defs::NoMemory;
pub use queue::MergeQueue;
