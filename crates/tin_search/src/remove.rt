//! Takes vertices out, the one first whose removal gains most.

use crate::arrays::NONE;
use crate::errors::triangle_cost;
use crate::ground::Ground;
use crate::known::KnownTable;
use crate::network::{Network, REMOVAL};
use crate::numbers::rise;
use crate::star::Star;
use std::alloc::{AllocError, Global};
use std::collections::BinaryHeap;

/// A vertex to take out, and what that gains.
#[derive(Clone, Copy, PartialEq, Eq, PartialOrd, Ord)]
pub struct Item {
    gain: i64,
    vertex: u32,
    stamp: u32,
}

/// The penalty of a triangle that is too far off the heights.
pub const FAR: u64 = 1 << 56;

/// Room for the search.
#[derive(Drop)]
pub struct Worker {
    /// The star of the vertex that is tried.
    pub star: Star,
    /// That of its neighbour, and the ring round both.
    pub other: Star,
    pub both: Star,
    /// The penalties of the best fillings of the hole's sub-polygons, and where each is cut.
    pub best: Vec<u64>,
    pub middles: Vec<u32>,
    pub known: KnownTable,
}

impl Worker {
    /// All that a search takes, but for the network and the heap.
    pub fn new(alloc: Global) -> Result<Worker, AllocError> {
        Ok(Worker {
            star: Star::new(),
            other: Star::new(),
            both: Star::new(),
            best: vec![in alloc; 0; 1024]?,
            middles: vec![in alloc; 0; 1024]?,
            known: KnownTable::new(alloc)?,
        })
    }

    /// The penalty of a triangle of three vertices, by the table of what was found while no vertex moves.
    pub fn named_cost(
        &mut self,
        network: &Network,
        ground: &Ground<'_>,
        a: u32,
        b: u32,
        c: u32,
    ) -> Option<u64> {
        let (a, b, c) = if b < a && b < c {
            (b, c, a)
        } else if c < a && c < b {
            (c, a, b)
        } else {
            (a, b, c)
        };
        if let Some(known) = self.known.find(a, b, c) {
            return known;
        }
        let cost = cost_of(network, ground, a, b, c);
        self.known.note(a, b, c, cost);
        cost
    }

    /// Finds what each triangle costs, and makes all trials due.
    pub fn cost_all(&mut self, network: &mut Network, ground: &Ground<'_>) {
        for triangle in 0..network.edges() / 3 {
            let h = triangle.wrapping_mul(3);
            let (a, b, c) = (
                network.corner(h),
                network.corner(h.wrapping_add(1)),
                network.corner(h.wrapping_add(2)),
            );
            if a != NONE {
                let cost = cost_of(network, ground, a, b, c).unwrap_or(FAR);
                network.set_cost(triangle, cost);
                network.renew(a);
            }
        }
    }

    /// What the star's triangles cost.
    pub fn star_cost(&self, network: &Network) -> u64 {
        let mut sum: u64 = 0;
        for at in 0..self.star.triangles {
            sum = sum.wrapping_add(network.cost(self.star.triangle(at)));
        }
        sum
    }

    /// What taking out a vertex gains; none where it has to stay.
    fn gain(&mut self, network: &Network, ground: &Ground<'_>, v: u32) -> Option<i64> {
        let point = network.place(v);
        if ground.is_corner(point.x, point.y) || !self.star.read(network, v) {
            return None;
        }
        let new = self.best_fill(network, ground)?;
        Some(rise(new, self.star_cost(network)).0)
    }

    /// Puts a vertex into the heap, if it can go.
    fn push(
        &mut self,
        heap: &mut BinaryHeap<Item>,
        network: &mut Network,
        ground: &Ground<'_>,
        v: u32,
    ) -> Result<(), AllocError> {
        network.take_due(v, REMOVAL);
        let stamp = network.restamp(v);
        if let Some(gain) = self.gain(network, ground, v) {
            heap.push(Item {
                gain,
                vertex: v,
                stamp,
            })?;
        }
        Ok(())
    }

    /// Takes out one vertex, and tries those round it anew.
    fn remove(
        &mut self,
        heap: &mut BinaryHeap<Item>,
        network: &mut Network,
        ground: &Ground<'_>,
        v: u32,
    ) -> Result<bool, AllocError> {
        if !self.star.read(network, v) || self.best_fill(network, ground).is_none() {
            return Ok(false);
        }
        network.drop_vertex(v);
        self.fill(network, ground);
        let mut ring = [NONE; 32];
        let count = self.star.count;
        for at in 0..count {
            ring[(at & 31) as usize] = self.star.vertex(at);
        }
        for at in 0..count {
            self.push(heap, network, ground, ring[(at & 31) as usize])?;
        }
        Ok(true)
    }

    /// Takes out vertices while one can go.
    pub fn remove_all(
        &mut self,
        alloc: Global,
        network: &mut Network,
        ground: &Ground<'_>,
    ) -> Result<u32, AllocError> {
        self.known.forget();
        let mut heap = BinaryHeap::new(alloc);
        for v in 0..network.vertices() {
            if network.edge_from(v) != NONE && network.is_due(v, REMOVAL) {
                self.push(&mut heap, network, ground, v)?;
            }
        }
        let mut count: u32 = 0;
        for _ in 0..u32::MAX {
            let Some(item) = heap.pop() else {
                break;
            };
            if network.edge_from(item.vertex) != NONE && network.stamp(item.vertex) == item.stamp {
                if self.remove(&mut heap, network, ground, item.vertex)? {
                    count = count.wrapping_add(1);
                }
            }
        }
        Ok(count)
    }
}

/// The penalty of a triangle of three vertices; none where it is not allowed.
pub fn cost_of(network: &Network, ground: &Ground<'_>, a: u32, b: u32, c: u32) -> Option<u64> {
    triangle_cost(ground, network.place(a), network.place(b), network.place(c))
}
