//! Closed sets of the grid of side 4, worked by hand.

ghost use Rattle.std.specs.Prelude.{◌≡◌, IfSome};
ghost use Rattle.mesh_defs.specs.Triangle.{IsSplittable};

use bintree_addr::Tri;
use diamond_rel::Split;
use std::alloc::Global;

/// The triangle with this address, if it is above the finest level of the grid.
fn splittable(number: u32) -> Option<Tri>
    ensures { IfSome result (IsSplittable 2) }
{
    let t = Tri::new(number)?;
    if t.level() < 4 { Some(t) } else { None }
}

/// Splits a triangle by force. Tells by how many members the set grows.
fn split(set: &mut Split, number: u32) -> Option<u32>
    requires { set.old.n ≡ 2 }
    ensures { set.new.n ≡ 2 }
{
    let t = splittable(number)?;
    set.split_forced(t).ok()
}

/// By how many members the set grows where 2, 4, 8 and 17 are split in turn, and by 11 then; its n, how many members
/// it has, and a bit for each of them.
fn corner_set(alloc: Global) -> ([Option<u32>; 4], Option<u32>, u32, u32, u64) {
    let mut set = Split::base(alloc, 2);
    let gains = [
        split(&mut set, 2),
        split(&mut set, 4),
        split(&mut set, 8),
        split(&mut set, 17),
    ];
    let again = splittable(11).and_then(|t| set.gain(alloc, t).ok());
    (gains, again, set.n(), set.size(), members_below_64(&set))
}

/// A bit for each address below 64 that the set has.
fn members_below_64(set: &Split) -> u64 {
    let mut bits = 0;
    for number in 2..64u32 {
        if Tri::new(number).is_some_and(|t| set.has(t)) {
            bits |= 1 << number;
        }
    }
    bits
}

/// The addresses of the leaves where this triangle is split by force; 0 past the last leaf.
fn leaves_after(alloc: Global, number: u32) -> Option<[u32; 10]> {
    let mut set = Split::base(alloc, 2);
    split(&mut set, number)?;
    let leaves = set.leaves(alloc).ok()?;
    let mut numbers = [0; 10];
    for (place, leaf) in numbers.iter_mut().zip(leaves.iter()) {
        *place = leaf.number();
    }
    Some(numbers)
}

#[test]
fn a_forced_split_adds_the_mate_and_the_parents(rt: HostRuntime) {
    let leaves = [16, 17, 9, 10, 22, 23, 6, 7, 0, 0];
    assert_eq!(rt; leaves_after(rt.alloc(), 8), Some(leaves));
    // 2, 3, 4, 5, 8, 11 and 17.
    let members = 1 << 2 | 1 << 3 | 1 << 4 | 1 << 5 | 1 << 8 | 1 << 11 | 1 << 17;
    let gains = [Some(2), Some(1), Some(3), Some(1)];
    let wanted = (gains, Some(0), 2, 7, members);
    assert_eq!(rt; corner_set(rt.alloc()), wanted);
}
