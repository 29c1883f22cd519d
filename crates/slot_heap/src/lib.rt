//! An addressable heap: a finite map from slots to keys that knows one of its least keys.
//!
//! A contract sees the list of each slot's key, `None` where the slot has none. The entries stand as
//! a tree of four children a node, no key less than its parent's: their keys in one vector, their
//! slots in another, and a third tells where each slot's entry stands. The room of the three is
//! taken by `new`, and by no other call.
//! What a key means, and which order is wanted, is the business of the queues above.

#![tactic(auto)]

mod change;
mod entries;
mod entry;
mod heap;
mod sift;

pub use bintree_addr::Slot;
pub use heap::SlotHeap;
pub use mesh_defs::NoMemory;
