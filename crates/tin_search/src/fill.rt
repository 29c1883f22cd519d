//! The best filling of a hole, by a table of its sub-polygons.

use crate::arrays::{NONE, read, read_sum, write, write_sum};
use crate::ground::Ground;
use crate::network::{Network, turn};
use crate::remove::Worker;
use crate::star::{MOST, Star};

/// The place of a sub-polygon.
#[inline]
fn cell(i: u32, j: u32) -> u32 {
    ((i & 31) << 5) | (j & 31)
}

impl Worker {
    /// The least cost of a filling; none where there is none.
    pub fn best_fill(&mut self, network: &Network, ground: &Ground<'_>) -> Option<u64> {
        let count = self.star.count;
        if count < 3 || count > MOST {
            return None;
        }
        for wide in 1..count {
            for i in 0..count - wide {
                self.fill_cell(network, ground, i, i.wrapping_add(wide));
            }
        }
        let found = read_sum(&self.best, cell(0, count - 1));
        if found == u64::MAX { None } else { Some(found) }
    }

    /// The best filling of one sub-polygon.
    fn fill_cell(&mut self, network: &Network, ground: &Ground<'_>, i: u32, j: u32) {
        let mut least = u64::MAX;
        if i.wrapping_add(1) == j {
            least = 0;
        }
        let mut middle = NONE;
        for m in i.wrapping_add(1)..j {
            let left = read_sum(&self.best, cell(i, m));
            let right = read_sum(&self.best, cell(m, j));
            let sum = left.saturating_add(right);
            if sum < least {
                let (a, b, c) = (
                    self.star.vertex(i),
                    self.star.vertex(m),
                    self.star.vertex(j),
                );
                if turn(network.place(a), network.place(b), network.place(c)).0 <= 0 {
                    continue;
                }
                if let Some(cost) = self.named_cost(network, ground, a, b, c) {
                    let total = sum.saturating_add(cost);
                    if total < least {
                        least = total;
                        middle = m;
                    }
                }
            }
        }
        write_sum(&mut self.best, cell(i, j), least);
        write(&mut self.middles, cell(i, j), middle);
    }

    /// Puts the best filling into the network in place of the star.
    pub fn fill(&mut self, network: &mut Network, ground: &Ground<'_>) {
        let count = self.star.count;
        let old = self.star.triangles;
        let mut used = 0;
        let mut todo = [(0u32, 0u32, 0u32); 32];
        let mut waiting: u32 = 1;
        todo[0] = (
            0,
            count.wrapping_sub(1),
            self.star.outer(count.wrapping_sub(1)),
        );
        for _ in 0..MOST {
            if waiting == 0 {
                break;
            }
            waiting -= 1;
            let (i, j, outer) = todo[(waiting & 31) as usize];
            let m = read(&self.middles, cell(i, j));
            let (a, b, c) = (
                self.star.vertex(i),
                self.star.vertex(m),
                self.star.vertex(j),
            );
            let triangle = self.star.triangle(used);
            used = used.wrapping_add(1);
            let cost = self.named_cost(network, ground, a, b, c).unwrap_or(0);
            network.set(triangle, a, b, c, cost);
            let h = triangle.wrapping_mul(3);
            network.link(h.wrapping_add(2), outer);
            if i.wrapping_add(1) == m {
                network.link(h, self.star.outer(i));
            } else {
                todo[(waiting & 31) as usize] = (i, m, h);
                waiting = waiting.wrapping_add(1);
            }
            if m.wrapping_add(1) == j {
                network.link(h.wrapping_add(1), self.star.outer(m));
            } else {
                todo[(waiting & 31) as usize] = (m, j, h.wrapping_add(1));
                waiting = waiting.wrapping_add(1);
            }
        }
        for at in used..old {
            network.drop_triangle(self.star.triangle(at));
        }
    }
}
