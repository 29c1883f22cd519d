//! Moves a vertex to another grid point within its star, if that costs less.

use crate::arrays::NONE;
use crate::errors::triangle_cost;
use crate::ground::Ground;
use crate::network::{MOVE, Network, Place};
use crate::numbers::{as_index, num, size, whole};
use crate::remove::{Worker, cost_of};
use crate::star::MOST;

impl Worker {
    /// Tries each vertex once.
    pub fn move_all(&mut self, network: &mut Network, ground: &Ground<'_>) -> u32 {
        let mut count: u32 = 0;
        for v in 0..network.vertices() {
            if network.edge_from(v) != NONE
                && network.take_due(v, MOVE)
                && self.star.read(network, v)
            {
                let mut step = self.reach(network, v) / 4;
                for _ in 0..3 {
                    if self.move_by(network, ground, v, step.max(1)) {
                        count = count.wrapping_add(1);
                    }
                    step /= 2;
                }
            }
        }
        count
    }

    /// How far the star of a vertex goes along the columns or the rows.
    fn reach(&self, network: &Network, v: u32) -> i64 {
        let here = network.place(v);
        let mut most = num(0);
        for at in 0..self.star.count {
            let there = network.place(self.star.vertex(at));
            most = most.max(size(there.x - here.x)).max(size(there.y - here.y));
        }
        most.0
    }

    /// Tries the eight places at a distance, for the vertex whose star was read.
    fn move_by(&mut self, network: &mut Network, ground: &Ground<'_>, v: u32, step: i64) -> bool {
        let here = network.place(v);
        let mut least = self.star_cost(network);
        let mut best = here;
        for place in 0..9u32 {
            let x = here.x + num(step) * (whole(place % 3) - num(1));
            let y = here.y + num(step) * (whole(place / 3) - num(1));
            let point = Place {
                x,
                y,
                z: ground.height(as_index(x), as_index(y)),
            };
            if place != 4 && self.may_move(network, ground, here, point) {
                if let Some(cost) = self.cost_at(network, ground, point, least) {
                    least = cost;
                    best = point;
                }
            }
        }
        if best.x == here.x && best.y == here.y {
            return false;
        }
        network.set_place(v, best);
        for at in 0..self.star.triangles {
            let (a, b) = (self.star.vertex(at), self.star.vertex_after(at));
            let cost = cost_of(network, ground, v, a, b).unwrap_or(0);
            network.set_cost(self.star.triangle(at), cost);
            network.renew(a);
        }
        network.renew(v);
        true
    }

    /// Whether a vertex may go to a place: within the rectangle, or along the side on which it lies.
    fn may_move(&self, network: &Network, ground: &Ground<'_>, from: Place, to: Place) -> bool {
        if self.star.is_round() {
            return ground.is_inside(to.x, to.y);
        }
        let first = network.place(self.star.vertex(0));
        let last = network.place(self.star.vertex(self.star.count.wrapping_sub(1)));
        !ground.is_corner(from.x, from.y)
            && if first.x == last.x {
                to.x == first.x
            } else {
                first.y == last.y && to.y == first.y
            }
    }

    /// What the star would cost with its vertex elsewhere; none where that is not allowed, or not less.
    fn cost_at(
        &mut self,
        network: &Network,
        ground: &Ground<'_>,
        point: Place,
        below: u64,
    ) -> Option<u64> {
        let mut sum: u64 = 0;
        for at in 0..self.star.triangles.min(MOST) {
            let (a, b) = (
                network.place(self.star.vertex(at)),
                network.place(self.star.vertex_after(at)),
            );
            sum = sum.saturating_add(triangle_cost(ground, point, a, b)?);
            if sum >= below {
                return None;
            }
        }
        Some(sum)
    }
}
