//! One frame of the two queues over deferred priorities, over any gauge and any mesh that has the queues.
//!
//! A frame begins with the mesh of the frame before, and splits and merges one diamond at a time until it is the mesh
//! of the budget. Most priorities are bounds of earlier frames; one is asked only where its bound leaves its place
//! open. The loop names no heap, sees no heights and no camera, and takes no memory.

#![tactic(auto)]

mod asking;
mod choice;
mod entering;
mod frame;
mod gauge;
mod limit;
mod next;
mod queued;
mod step;

pub use asking::{settle_first, settle_last};
pub use choice::choose;
pub use entering::{begin_frame, enter_fresh};
pub use frame::{Steps, advance};
pub use gauge::{Gauge, Reading};
pub use limit::Limit;
pub use next::{Ending, Next};
pub use queued::{Head, Last, Located, QueuedMesh};
pub use step::{merge_at, split_at};
