//! Tests of data in and out: files of grids, lines of scripts, numbers and meshes as text, generated terrain, kernels
//! beside their plain twins, marks, and the adapters to files.
//!
//! For whoever changes a crate from `roam_edge` and `pgm_grid` up to `obj_write`: these crates have no tests of their
//! own, since a crate with tests is proved twice. The definitions that their contracts name are worked by hand in
//! `laws_tests`, and the tables of `checks/` try the program with more. There is no code here that another crate calls.

#![tactic(auto)]

#[cfg(test)]
mod adapters;
#[cfg(test)]
mod flaky_files;
#[cfg(test)]
mod generated;
#[cfg(test)]
mod grid_files;
#[cfg(test)]
mod kernels;
#[cfg(test)]
mod leaves;
#[cfg(test)]
mod marks;
#[cfg(test)]
mod mesh_texts;
#[cfg(test)]
mod numbers;
#[cfg(test)]
mod script_lines;
