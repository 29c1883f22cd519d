//! The partners of edges, from the vertices of triangles.

use crate::arrays::{NONE, read, write};
use crate::network::{Network, next};
use std::alloc::{AllocError, Global};

/// The most edges that leave a vertex and wait for a partner.
const MOST_WAITING: u32 = 64;

/// The edges that leave each vertex and were seen already, as lists: the last of a vertex, and the one before each.
#[derive(Drop)]
struct Seen {
    last: Vec<u32>,
    before: Vec<u32>,
}

impl Network {
    /// Makes edges partners that lead between the same two vertices, one each way.
    pub fn join(&mut self, alloc: Global) -> Result<(), AllocError> {
        let mut seen = Seen {
            last: vec![in alloc; NONE; self.vertices() as usize]?,
            before: vec![in alloc; NONE; self.edges() as usize]?,
        };
        for h in 0..self.edges() {
            let partner = self.waiting(&seen, h);
            if partner != NONE {
                self.link(h, partner);
            }
            let from = self.corner(h);
            let earlier = read(&seen.last, from);
            write(&mut seen.before, h, earlier);
            write(&mut seen.last, from, h);
        }
        Ok(())
    }

    /// The edge that was seen and leads the other way; nothing where there is none.
    fn waiting(&self, seen: &Seen, h: u32) -> u32 {
        let (from, to) = (self.corner(h), self.corner(next(h)));
        let mut it = read(&seen.last, to);
        for _ in 0..MOST_WAITING {
            if it == NONE {
                return NONE;
            }
            if self.corner(next(it)) == from && self.partner(it) == NONE {
                return it;
            }
            it = read(&seen.before, it);
        }
        NONE
    }
}
