//! The geometry of the triangle bintree: levels, corners, mates.
//!
//! A law crate: definitions and lemmas, and no code that runs. The main laws are clauses of functions with
//! empty bodies, so a caller gets them by a call that costs nothing; the other lemmas are listed by subject
//! in the README and are cited by their paths. Tilings and closed sets are the business of the crates above.

#![tactic(auto)]

mod laws;

pub use laws::{corner_laws, level_laws, mate_laws};
