//! Turns an edge between two triangles, if that costs less.

use crate::arrays::NONE;
use crate::ground::Ground;
use crate::network::{Network, before, next};
use crate::remove::{Worker, cost_of};

impl Worker {
    /// Turns each edge once, if that costs less.
    pub fn flip_all(&mut self, network: &mut Network, ground: &Ground<'_>) -> u32 {
        let mut count: u32 = 0;
        for h in 0..network.edges() {
            let partner = network.partner(h);
            if network.corner(h / 3 * 3) != NONE
                && partner != NONE
                && h < partner
                && self.flip(network, ground, h, partner)
            {
                count = count.wrapping_add(1);
            }
        }
        count
    }

    /// Turns the edge from a to b between a b c and b a d, if that costs less: a d c and d b c.
    fn flip(&mut self, network: &mut Network, ground: &Ground<'_>, h: u32, partner: u32) -> bool {
        let (a, b) = (network.corner(h), network.corner(partner));
        let (c, d) = (network.corner(before(h)), network.corner(before(partner)));
        let (first, second) = (h / 3, partner / 3);
        let old = network.cost(first).saturating_add(network.cost(second));
        let Some(left) = cost_of(network, ground, a, d, c) else {
            return false;
        };
        if left >= old {
            return false;
        }
        let Some(right) = cost_of(network, ground, d, b, c) else {
            return false;
        };
        if left.saturating_add(right) >= old {
            return false;
        }
        let (bc, ca) = (network.partner(next(h)), network.partner(before(h)));
        let (ad, db) = (
            network.partner(next(partner)),
            network.partner(before(partner)),
        );
        network.set(first, a, d, c, left);
        network.set(second, d, b, c, right);
        let (t, u) = (first.wrapping_mul(3), second.wrapping_mul(3));
        network.link(t, ad);
        network.link(t.wrapping_add(1), u.wrapping_add(2));
        network.link(t.wrapping_add(2), ca);
        network.link(u, db);
        network.link(u.wrapping_add(1), bc);
        true
    }
}
