//! Worked numbers of the definitions, and tests of addresses and closed sets.
//!
//! For whoever changes a law crate, `bintree_addr` or `diamond_rel`: these crates have no tests of their own, since a
//! crate with tests is proved twice. The worked numbers are computed by the check. There is no code here that another
//! crate calls.

#![tactic(auto)]

#[cfg(test)]
mod addresses;
#[cfg(test)]
mod closed_sets;
mod worked_frames;
#[cfg(test)]
mod worked_numbers;
