//! Puts a vertex into each triangle that is too far off the heights, where it is farthest.

use crate::arrays::NONE;
use crate::errors::worst_point;
use crate::ground::Ground;
use crate::network::{Network, Place, before, next, turn};
use crate::remove::cost_of;
use crate::taken::{height_of, point_of};
use std::alloc::{AllocError, Global};

/// Puts vertices in until no triangle is too far off.
pub fn put_all(
    alloc: Global,
    network: &mut Network,
    ground: &Ground<'_>,
) -> Result<(), AllocError> {
    let mut waiting = Vec::new(alloc);
    for triangle in 0..network.edges() / 3 {
        waiting.push(triangle)?;
    }
    for _ in 0..u32::MAX {
        let Some(triangle) = waiting.pop() else {
            break;
        };
        try_triangle(network, ground, triangle, &mut waiting)?;
    }
    Ok(())
}

/// Notes the penalty of a triangle, or puts a vertex into it.
fn try_triangle(
    network: &mut Network,
    ground: &Ground<'_>,
    triangle: u32,
    waiting: &mut Vec<u32>,
) -> Result<(), AllocError> {
    let h = triangle.wrapping_mul(3);
    let (a, b, c) = (
        network.corner(h),
        network.corner(next(h)),
        network.corner(before(h)),
    );
    if a == NONE {
        return Ok(());
    }
    if let Some(cost) = cost_of(network, ground, a, b, c) {
        network.set_cost(triangle, cost);
        return Ok(());
    }
    let (p, q, r) = (network.place(a), network.place(b), network.place(c));
    let Some(worst) = worst_point(ground, p, q, r) else {
        return Ok(());
    };
    if is_at(worst, p) || is_at(worst, q) || is_at(worst, r) {
        return Ok(());
    }
    let m = network.vertices();
    network.push_vertex(point_of(worst), height_of(worst))?;
    for edge in [h, next(h), before(h)] {
        let (from, to) = (
            network.place(network.corner(edge)),
            network.place(network.corner(next(edge))),
        );
        if turn(from, to, worst).0 == 0 {
            return cut_edge(network, edge, m, waiting);
        }
    }
    cut_triangle(network, triangle, m, waiting)
}

/// Whether two points lie at one place.
fn is_at(one: Place, other: Place) -> bool {
    one.x == other.x && one.y == other.y
}

/// Cuts a triangle into three at a vertex within it.
fn cut_triangle(
    network: &mut Network,
    triangle: u32,
    m: u32,
    waiting: &mut Vec<u32>,
) -> Result<(), AllocError> {
    let h = triangle.wrapping_mul(3);
    let (a, b, c) = (
        network.corner(h),
        network.corner(next(h)),
        network.corner(before(h)),
    );
    let (ab, bc, ca) = (
        network.partner(h),
        network.partner(next(h)),
        network.partner(before(h)),
    );
    let second = network.edges();
    let third = second.wrapping_add(3);
    network.set(triangle, m, a, b, 0);
    network.push_triangle(m, b, c)?;
    network.push_triangle(m, c, a)?;
    network.link(next(h), ab);
    network.link(second.wrapping_add(1), bc);
    network.link(third.wrapping_add(1), ca);
    network.link(h.wrapping_add(2), second);
    network.link(second.wrapping_add(2), third);
    network.link(third.wrapping_add(2), h);
    waiting.push(triangle)?;
    waiting.push(second / 3)?;
    waiting.push(third / 3)?;
    Ok(())
}

/// Cuts the triangles of an edge in two each, at a vertex on it.
fn cut_edge(
    network: &mut Network,
    edge: u32,
    m: u32,
    waiting: &mut Vec<u32>,
) -> Result<(), AllocError> {
    let partner = network.partner(edge);
    let (near, from_here) = cut_beside(network, edge, m, waiting)?;
    network.link(near, NONE);
    network.link(from_here, NONE);
    if partner != NONE {
        let (far, from_there) = cut_beside(network, partner, m, waiting)?;
        network.link(near, from_there);
        network.link(from_here, far);
    }
    Ok(())
}

/// Cuts the triangle a b c of the edge from a to b in two, m b c and m c a; gives the edges from m to b and from a to m.
fn cut_beside(
    network: &mut Network,
    edge: u32,
    m: u32,
    waiting: &mut Vec<u32>,
) -> Result<(u32, u32), AllocError> {
    let (a, b, c) = (
        network.corner(edge),
        network.corner(next(edge)),
        network.corner(before(edge)),
    );
    let (bc, ca) = (network.partner(next(edge)), network.partner(before(edge)));
    let (triangle, second) = (edge / 3, network.edges());
    let h = triangle.wrapping_mul(3);
    network.set(triangle, m, b, c, 0);
    network.push_triangle(m, c, a)?;
    network.link(next(h), bc);
    network.link(second.wrapping_add(1), ca);
    network.link(h.wrapping_add(2), second);
    waiting.push(triangle)?;
    waiting.push(second / 3)?;
    Ok((h, second.wrapping_add(2)))
}
