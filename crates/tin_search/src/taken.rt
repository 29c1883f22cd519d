//! A network as arrays, without what is gone.

use crate::arrays::{NONE, read, write};
use crate::network::{Network, Place};
use crate::numbers::as_index;
use mesh_defs::Point;
use std::alloc::{AllocError, Global};

/// Vertices and triangles, numbered from 0.
#[derive(Drop)]
pub struct Taken {
    /// The grid point of each vertex.
    pub points: Vec<Point>,
    /// The height of each vertex.
    pub heights: Vec<u16>,
    /// The vertices of the corners, three for each triangle, counterclockwise.
    pub corners: Vec<u32>,
    /// The partner of each edge; its own number on the border.
    pub across: Vec<u32>,
}

/// The vertices and triangles of a network that are there.
pub fn taken_from(alloc: Global, network: &Network) -> Result<Taken, AllocError> {
    let mut taken = Taken {
        points: Vec::new(alloc),
        heights: Vec::new(alloc),
        corners: Vec::new(alloc),
        across: Vec::new(alloc),
    };
    let vertices = taken.take_vertices(alloc, network)?;
    let edges = edge_numbers(alloc, network)?;
    for h in 0..network.edges() {
        let number = read(&edges, h);
        if number != NONE {
            taken.corners.push(read(&vertices, network.corner(h)))?;
            let partner = network.partner(h);
            taken.across.push(if partner == NONE {
                number
            } else {
                read(&edges, partner)
            })?;
        }
    }
    Ok(taken)
}

impl Taken {
    /// Takes the vertices, and gives the number of each by its old one.
    fn take_vertices(&mut self, alloc: Global, network: &Network) -> Result<Vec<u32>, AllocError> {
        let mut numbers = vec![in alloc; NONE; network.vertices() as usize]?;
        let mut count: u32 = 0;
        for v in 0..network.vertices() {
            if network.edge_from(v) != NONE {
                let place = network.place(v);
                self.points.push(point_of(place))?;
                self.heights.push(height_of(place))?;
                write(&mut numbers, v, count);
                count = count.wrapping_add(1);
            }
        }
        Ok(numbers)
    }
}

/// The number of each edge of a triangle that is there, by its old one.
fn edge_numbers(alloc: Global, network: &Network) -> Result<Vec<u32>, AllocError> {
    let mut numbers = vec![in alloc; NONE; network.edges() as usize]?;
    let mut count: u32 = 0;
    for h in 0..network.edges() {
        if network.corner(h / 3 * 3) != NONE {
            write(&mut numbers, h, count);
            count = count.wrapping_add(1);
        }
    }
    Ok(numbers)
}

/// The grid point of a place.
pub fn point_of(place: Place) -> Point {
    Point {
        x: as_index(place.x),
        y: as_index(place.y),
    }
}

/// The height of a place.
pub fn height_of(place: Place) -> u16 {
    (as_index(place.z) & 0xffff) as u16
}
