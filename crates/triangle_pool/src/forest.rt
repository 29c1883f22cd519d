//! Nodes and their links.

ghost use Rattle.std.specs.Prelude.{◌≡◌, ℕ, ◌+◌, ◌*◌, ◌/◌, ◌%◌, ◌^◌, ◌<◌, ◌≤◌, slice_index, length};
ghost use Rattle.mesh_defs.specs.Triangle.{level_of};
ghost use Rattle.mesh_laws.specs.Net.{IsTree};
ghost use Rattle.mesh_laws.specs.Slots.{address_at, IsLive};

use bintree_addr::Tri;

/// The node of a slot: the pair of its children, and the slots across its edges.
#[derive(Clone, Copy, Debug)]
pub struct Node {
    pub children: u32,
    pub base: u32,
    pub left: u32,
    pub right: u32,
}

/// The link that stands for no slot.
pub const NOWHERE: u32 = u32::MAX;

pub fn address(pairs: &[u32], s: u32) -> u32
    requires live { IsLive pairs.now s }
    requires small { slice_index pairs.now (s / 2) < 2 ^ 29 }
    requires within { s / 2 < length pairs.now }
    ensures { result ≡ address_at pairs.now s }
{
    2 * pairs[s as usize / 2] + s % 2
}

pub fn level(number: u32) -> u32
    requires low { 2 ≤ number }
    requires high { number < 2 ^ 30 }
    ensures { result ≡ level_of number }
{
    match Tri::at(number) {
        Some(tri) => tri.level(),
        None => unreachable!(),
    }
}
