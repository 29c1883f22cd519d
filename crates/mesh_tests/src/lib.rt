//! Tests of meshes and of what they stand on: the engine, the pool of triangles, keys and deadlines of its queues, the
//! drawing buffer and the plain mesh; certificates, terrains of many tiles, and the triangles of points. Least meshes,
//! meshes by their error and strips are tried through program and library: `checks/test_scripts.py`,
//! `test_meshes.py`, `test_tiles.py`.
//!
//! For whoever changes a crate from `slot_heap` and `address_flags` up to `engine_uses`, `mosaic_fit` or
//! `fit_certify`: these have no tests of their own, since a crate with tests is proved twice. A test shows what no
//! clause says: that the definitions mean what numbers worked by hand say, and that a call succeeds where there is
//! memory. Few functions own an engine. There is no code here that another crate calls.

#![tactic(auto)]

#[cfg(test)]
mod buffer;
#[cfg(test)]
mod certificates;
#[cfg(test)]
mod deadlines;
#[cfg(test)]
mod engine;
#[cfg(test)]
mod flights;
#[cfg(test)]
mod grids;
#[cfg(test)]
mod heap;
#[cfg(test)]
mod limits;
#[cfg(test)]
mod mosaics;
#[cfg(test)]
mod points;
#[cfg(test)]
mod pool;
#[cfg(test)]
mod random_flights;
#[cfg(test)]
mod terrain;
