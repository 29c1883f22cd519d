//! Triangles by their edges: edge h of triangle h / 3 leads from corner h to the next, and `across` names its partner.

use crate::arrays::{NONE, read, read_sum, write, write_sum};
use crate::numbers::{Num, whole};
use mesh_defs::Point;
use std::alloc::{AllocError, Global};

/// Where a vertex is: column, row, height.
#[derive(Clone, Copy)]
pub struct Place {
    pub x: Num,
    pub y: Num,
    pub z: Num,
}

/// The trials of a vertex: its removal, its move, its joins, and its joins in the pass that is under way.
pub const REMOVAL: u32 = 1;

pub const MOVE: u32 = 2;

pub const JOINS: u32 = 4;

pub const JOINS_NOW: u32 = 8;

/// The trials that are due where what lies round a vertex has changed.
const ALL: u32 = REMOVAL | MOVE | JOINS;

/// Triangles that turn left, and what is known of each.
#[derive(Drop)]
pub struct Network {
    /// The vertex of each corner; that of a triangle's first corner is NONE where the triangle is gone.
    corners: Vec<u32>,
    /// The partner of each edge, NONE on the border.
    across: Vec<u32>,
    /// The penalty of each triangle.
    costs: Vec<u64>,
    places: Vec<Place>,
    /// An edge that leaves each vertex, NONE where the vertex is gone.
    leaving: Vec<u32>,
    /// How often each vertex was weighed.
    stamps: Vec<u32>,
    /// Which trials of each vertex are due.
    due: Vec<u32>,
    /// How many triangles there are.
    pub count: u32,
}

/// The next edge of the same triangle.
#[inline]
pub fn next(h: u32) -> u32 {
    if h % 3 == 2 { h - 2 } else { h.wrapping_add(1) }
}

/// The edge before it.
#[inline]
pub fn before(h: u32) -> u32 {
    if h % 3 == 0 { h.wrapping_add(2) } else { h - 1 }
}

/// Twice the area of three points, more than 0 where they turn left.
#[inline]
pub fn turn(a: Place, b: Place, c: Place) -> Num {
    (b.x - a.x) * (c.y - a.y) - (b.y - a.y) * (c.x - a.x)
}

impl Network {
    /// No vertex and no triangle.
    pub fn new(alloc: Global) -> Network {
        Network {
            corners: Vec::new(alloc),
            across: Vec::new(alloc),
            costs: Vec::new(alloc),
            places: Vec::new(alloc),
            leaving: Vec::new(alloc),
            stamps: Vec::new(alloc),
            due: Vec::new(alloc),
            count: 0,
        }
    }

    /// The same network again.
    pub fn copy(&self) -> Result<Network, AllocError> {
        Ok(Network {
            corners: self.corners.clone()?,
            across: self.across.clone()?,
            costs: self.costs.clone()?,
            places: self.places.clone()?,
            leaving: self.leaving.clone()?,
            stamps: self.stamps.clone()?,
            due: self.due.clone()?,
            count: self.count,
        })
    }

    /// Puts a vertex behind the others.
    pub fn push_vertex(&mut self, at: Point, height: u16) -> Result<(), AllocError> {
        self.places.push(Place {
            x: whole(at.x),
            y: whole(at.y),
            z: whole(u32::from(height)),
        })?;
        self.leaving.push(NONE)?;
        self.stamps.push(0)?;
        self.due.push(ALL)?;
        Ok(())
    }

    /// Puts a triangle of three vertices behind the others, whose partners are not known yet.
    pub fn push_triangle(&mut self, a: u32, b: u32, c: u32) -> Result<(), AllocError> {
        self.push_corner(a)?;
        self.push_corner(b)?;
        self.push_corner(c)?;
        self.costs.push(0)?;
        self.count = self.count.wrapping_add(1);
        Ok(())
    }

    /// Puts a corner behind the others.
    fn push_corner(&mut self, v: u32) -> Result<(), AllocError> {
        let h = self.edges();
        write(&mut self.leaving, v, h);
        self.corners.push(v)?;
        self.across.push(NONE)?;
        Ok(())
    }

    /// How many edges have a place.
    pub fn edges(&self) -> u32 {
        let len = self.corners.len();
        if len < 0xffff_ffff { len as u32 } else { 0 }
    }

    /// How many vertices have a place.
    pub fn vertices(&self) -> u32 {
        let len = self.places.len();
        if len < 0xffff_ffff { len as u32 } else { 0 }
    }

    /// The vertex that an edge leaves; nothing where the triangle is gone.
    #[inline]
    pub fn corner(&self, h: u32) -> u32 {
        read(&self.corners, h)
    }

    /// The partner of an edge.
    #[inline]
    pub fn partner(&self, h: u32) -> u32 {
        read(&self.across, h)
    }

    /// An edge that leaves a vertex; nothing where the vertex is gone.
    #[inline]
    pub fn edge_from(&self, v: u32) -> u32 {
        read(&self.leaving, v)
    }

    /// Where a vertex is.
    #[inline]
    pub fn place(&self, v: u32) -> Place {
        if (v as usize) < self.places.len() {
            self.places[v as usize]
        } else {
            Place {
                x: whole(0),
                y: whole(0),
                z: whole(0),
            }
        }
    }

    /// Moves a vertex.
    pub fn set_place(&mut self, v: u32, point: Place) {
        if (v as usize) < self.places.len() {
            self.places[v as usize] = point;
        }
    }

    /// The penalty of a triangle.
    #[inline]
    pub fn cost(&self, triangle: u32) -> u64 {
        read_sum(&self.costs, triangle)
    }

    /// Notes the penalty of a triangle.
    pub fn set_cost(&mut self, triangle: u32, cost: u64) {
        write_sum(&mut self.costs, triangle, cost);
    }

    /// The stamp of a vertex.
    pub fn stamp(&self, v: u32) -> u32 {
        read(&self.stamps, v)
    }

    /// Gives a vertex a new stamp.
    pub fn restamp(&mut self, v: u32) -> u32 {
        let stamp = read(&self.stamps, v).wrapping_add(1);
        write(&mut self.stamps, v, stamp);
        stamp
    }

    /// Whether a trial of a vertex is due, which it is no longer then.
    pub fn take_due(&mut self, v: u32, trial: u32) -> bool {
        let due = read(&self.due, v);
        write(&mut self.due, v, due & !trial);
        due & trial != 0
    }

    /// Whether a trial of a vertex is due.
    pub fn is_due(&self, v: u32, trial: u32) -> bool {
        read(&self.due, v) & trial != 0
    }

    /// Makes the joins that are due those of the pass that is under way, or ends it.
    pub fn turn_joins(&mut self, begins: bool) {
        for v in 0..self.vertices() {
            let due = read(&self.due, v);
            let rest = due & !JOINS_NOW;
            let turned = if begins && due & JOINS != 0 {
                (rest & !JOINS) | JOINS_NOW
            } else {
                rest
            };
            write(&mut self.due, v, turned);
        }
    }

    /// Makes all trials of a vertex due.
    pub fn renew(&mut self, v: u32) {
        let due = read(&self.due, v);
        write(&mut self.due, v, due | ALL);
    }

    /// Makes two edges partners.
    pub fn link(&mut self, h: u32, partner: u32) {
        write(&mut self.across, h, partner);
        if partner != NONE {
            write(&mut self.across, partner, h);
        }
    }

    /// Puts a triangle of three vertices at a place.
    pub fn set(&mut self, triangle: u32, a: u32, b: u32, c: u32, cost: u64) {
        let h = triangle.wrapping_mul(3);
        self.set_corner(h, a);
        self.set_corner(h.wrapping_add(1), b);
        self.set_corner(h.wrapping_add(2), c);
        self.set_cost(triangle, cost);
    }

    /// Puts a vertex at a corner.
    fn set_corner(&mut self, h: u32, v: u32) {
        write(&mut self.corners, h, v);
        write(&mut self.leaving, v, h);
        self.renew(v);
    }

    /// Takes a triangle away.
    pub fn drop_triangle(&mut self, triangle: u32) {
        write(&mut self.corners, triangle.wrapping_mul(3), NONE);
        self.count = self.count.wrapping_sub(1);
    }

    /// Takes a vertex away.
    pub fn drop_vertex(&mut self, v: u32) {
        write(&mut self.leaving, v, NONE);
        self.restamp(v);
    }
}
