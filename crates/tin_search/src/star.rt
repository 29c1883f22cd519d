//! The triangles round a vertex.

use crate::arrays::NONE;
use crate::network::{Network, before, next};

/// The most corners of a hole.
pub const MOST: u32 = 24;

/// The vertices round a vertex, turning left: `out` is the partner of the edge from one to the next.
#[derive(Drop)]
pub struct Star {
    pub count: u32,
    pub triangles: u32,
    ring: [u32; 64],
    out: [u32; 64],
    of: [u32; 64],
}

impl Star {
    /// No star.
    pub fn new() -> Star {
        Star {
            count: 0,
            triangles: 0,
            ring: [NONE; 64],
            out: [NONE; 64],
            of: [NONE; 64],
        }
    }

    /// A vertex of the ring.
    #[inline]
    pub fn vertex(&self, at: u32) -> u32 {
        self.ring[(at & 63) as usize]
    }

    /// The vertex after one of the ring, which is closed.
    #[inline]
    pub fn vertex_after(&self, at: u32) -> u32 {
        if at.wrapping_add(1) < self.count {
            self.vertex(at.wrapping_add(1))
        } else {
            self.vertex(0)
        }
    }

    /// The partner of an edge of the ring.
    #[inline]
    pub fn outer(&self, at: u32) -> u32 {
        self.out[(at & 63) as usize]
    }

    /// A triangle of the star.
    #[inline]
    pub fn triangle(&self, at: u32) -> u32 {
        self.of[(at & 63) as usize]
    }

    /// Puts a vertex and what lies beyond the edge that it starts behind the others.
    pub fn push(&mut self, vertex: u32, outer: u32) {
        self.ring[(self.count & 63) as usize] = vertex;
        self.out[(self.count & 63) as usize] = outer;
        self.count = self.count.wrapping_add(1);
    }

    /// Puts a triangle behind the others.
    pub fn push_triangle(&mut self, triangle: u32) {
        self.of[(self.triangles & 63) as usize] = triangle;
        self.triangles = self.triangles.wrapping_add(1);
    }

    /// Empties the ring.
    pub fn clear(&mut self) {
        self.count = 0;
        self.triangles = 0;
    }

    /// Whether the vertex lies within its ring, and not on the border.
    pub fn is_round(&self) -> bool {
        self.count == self.triangles
    }

    /// The place of a vertex in the ring; how many there are where it is not there.
    pub fn place_of(&self, vertex: u32) -> u32 {
        for at in 0..self.count {
            if self.vertex(at) == vertex {
                return at;
            }
        }
        self.count
    }

    /// Reads the star of a vertex; false where it has none, or too many triangles.
    pub fn read(&mut self, network: &Network, v: u32) -> bool {
        self.clear();
        let first = first_leaving(network, v);
        let mut h = first;
        for _ in 0..MOST {
            if h == NONE {
                return false;
            }
            self.push_triangle(h / 3);
            let far = next(h);
            self.push(network.corner(far), network.partner(far));
            let last = before(h);
            h = network.partner(last);
            if h == NONE {
                self.push(network.corner(last), NONE);
                return self.count >= 3;
            }
            if h == first {
                return self.count >= 3;
            }
        }
        false
    }
}

/// The edge that leaves a vertex first, turning left from the border.
fn first_leaving(network: &Network, v: u32) -> u32 {
    let start = network.edge_from(v);
    if start == NONE {
        return NONE;
    }
    let mut h = start;
    for _ in 0..MOST {
        let partner = network.partner(h);
        if partner == NONE {
            return h;
        }
        h = next(partner);
        if h == start {
            return h;
        }
    }
    NONE
}
