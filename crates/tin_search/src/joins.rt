//! Joins the two ends of an edge into one vertex between them.

use crate::arrays::NONE;
use crate::errors::triangle_cost;
use crate::ground::Ground;
use crate::network::{JOINS, JOINS_NOW, Network, Place};
use crate::numbers::{Num, as_index, num, rise};
use crate::remove::{Worker, cost_of};

/// A join: the end that goes, where the other one comes to lie, and how much the penalties rise.
#[derive(Clone, Copy)]
struct Join {
    gone: u32,
    place: Place,
    rise: Num,
}

impl Worker {
    /// Tries the edges of each vertex round which something has changed, and makes the best join of each.
    pub fn join_all(&mut self, network: &mut Network, ground: &Ground<'_>) -> u32 {
        network.turn_joins(true);
        let mut count: u32 = 0;
        for v in 0..network.vertices() {
            if network.edge_from(v) != NONE && self.star.read(network, v) && self.star.is_round() {
                if let Some(join) = self.best_join(network, ground, v) {
                    self.make_join(network, ground, v, join);
                    count = count.wrapping_add(1);
                }
            }
        }
        network.turn_joins(false);
        count
    }

    /// The best join of a vertex, whose star was read, with a later neighbour.
    fn best_join(&mut self, network: &Network, ground: &Ground<'_>, v: u32) -> Option<Join> {
        let trial = JOINS | JOINS_NOW;
        let is_due = network.is_due(v, trial);
        let mut best: Option<Join> = None;
        for at in 0..self.star.count {
            let u = self.star.vertex(at);
            if v < u && (is_due || network.is_due(u, trial)) && self.read_both(network, v, u) {
                let old = self.cost_of_both(network);
                for quarters in 1..4 {
                    let place = between(ground, network.place(v), network.place(u), quarters);
                    if let Some(cost) = self.fan_cost(network, ground, place) {
                        let rise = rise(old, cost);
                        if best.is_none_or(|it| rise < it.rise) {
                            best = Some(Join {
                                gone: u,
                                place,
                                rise,
                            });
                        }
                    }
                }
            }
        }
        best
    }

    /// Reads the ring round a vertex, whose star was read, and its neighbour; false where the neighbour lies on the
    /// border, or there is none.
    fn read_both(&mut self, network: &Network, v: u32, u: u32) -> bool {
        if !self.other.read(network, u) || !self.other.is_round() {
            return false;
        }
        let (i, j) = (self.star.place_of(u), self.other.place_of(v));
        let (of_v, of_u) = (self.star.count, self.other.count);
        self.both.clear();
        if of_v < 3 || of_u < 3 || i == of_v || j == of_u {
            return false;
        }
        for step in 1..of_v.wrapping_sub(1) {
            let at = around(i.wrapping_add(step), of_v);
            self.both.push(self.star.vertex(at), self.star.outer(at));
        }
        let (last, behind) = (
            around(i.wrapping_add(of_v).wrapping_sub(1), of_v),
            around(j.wrapping_add(1), of_u),
        );
        self.both
            .push(self.star.vertex(last), self.other.outer(behind));
        for step in 2..of_u.wrapping_sub(1) {
            let at = around(j.wrapping_add(step), of_u);
            self.both.push(self.other.vertex(at), self.other.outer(at));
        }
        self.list_triangles(j);
        true
    }

    /// Lists the triangles of both stars: the two that they share stand at the neighbour's place of the vertex, and before it.
    fn list_triangles(&mut self, j: u32) {
        for at in 0..self.star.triangles {
            self.both.push_triangle(self.star.triangle(at));
        }
        let of_u = self.other.triangles;
        for step in 1..of_u.wrapping_sub(1).min(64) {
            let at = around(j.wrapping_add(step), of_u);
            self.both.push_triangle(self.other.triangle(at));
        }
    }

    /// The penalties of the triangles of both stars.
    fn cost_of_both(&self, network: &Network) -> u64 {
        let mut sum: u64 = 0;
        for at in 0..self.both.triangles.min(64) {
            sum = sum.saturating_add(network.cost(self.both.triangle(at)));
        }
        sum
    }

    /// The penalties of the triangles from a place to the ring round both; none where one is not allowed.
    fn fan_cost(&self, network: &Network, ground: &Ground<'_>, place: Place) -> Option<u64> {
        let mut sum: u64 = 0;
        for at in 0..self.both.count.min(64) {
            let (a, b) = (
                network.place(self.both.vertex(at)),
                network.place(self.both.vertex_after(at)),
            );
            sum = sum.saturating_add(triangle_cost(ground, place, a, b)?);
        }
        Some(sum)
    }

    /// Puts a fan round the vertex in place of both stars, whose ring is read anew.
    fn make_join(&mut self, network: &mut Network, ground: &Ground<'_>, v: u32, join: Join) {
        if !self.read_both(network, v, join.gone) {
            return;
        }
        network.drop_vertex(join.gone);
        network.set_place(v, join.place);
        let count = self.both.count.min(64);
        for at in 0..count {
            let triangle = self.both.triangle(at);
            let (a, b) = (self.both.vertex(at), self.both.vertex_after(at));
            let cost = cost_of(network, ground, v, a, b).unwrap_or(0);
            network.set(triangle, v, a, b, cost);
            let h = triangle.wrapping_mul(3);
            network.link(h.wrapping_add(1), self.both.outer(at));
            let after = if at.wrapping_add(1) < count {
                at.wrapping_add(1)
            } else {
                0
            };
            network.link(h.wrapping_add(2), self.both.triangle(after).wrapping_mul(3));
        }
        for at in count..self.both.triangles.min(64) {
            network.drop_triangle(self.both.triangle(at));
        }
    }
}

/// A place of a closed ring.
#[inline]
fn around(at: u32, count: u32) -> u32 {
    if at < count {
        at
    } else {
        at.wrapping_sub(count)
    }
}

/// The grid point at so many quarters of the way between two.
fn between(ground: &Ground<'_>, a: Place, b: Place, quarters: i64) -> Place {
    let x = a.x + num(((b.x - a.x) * num(quarters)).0 / 4);
    let y = a.y + num(((b.y - a.y) * num(quarters)).0 / 4);
    Place {
        x,
        y,
        z: ground.height(as_index(x), as_index(y)),
    }
}
