//! Lists that are combined element by element: lemmas of what a change of one or of both does.
//!
//! A law crate of lemmas alone, over lists of any types, for the queues above; no clause can speak of all types at once.

#![tactic(auto)]
