//! Comparing a file with the text of a mesh, line after line, without making the whole text.
//!
//! For whoever checks a certificate: the file of its mesh has to be the text that `obj_write` writes of its triangles
//! without view planes. The answer is the first place where the two differ.
//! A file is no more than its bytes here: nothing is read of them as vertices or faces.

#![tactic(auto)]

mod comparing;
mod laws;
mod piece;
mod window;

pub use comparing::{CompareFault, compare, compare_heights};
pub use laws::difference_laws;
