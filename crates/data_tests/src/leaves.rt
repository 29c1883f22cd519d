//! Lists of triangles by their addresses.

ghost use Rattle.std.specs.Prelude.{◌*◌, ◌≤◌, IfOk, All};
ghost use Rattle.mesh_defs.specs.Triangle.{level_of};

use bintree_addr::Tri;
use std::alloc::Global;
use std::test::Fail;

/// The triangles with these addresses, if the grid of level n has them.
pub(crate) fn leaves_of(alloc: Global, n: u32, numbers: &[u32]) -> Result<Vec<Tri>, Fail>
    requires { n ≤ 14 }
    ensures { IfOk result (λ leaves. All (λ a. level_of a ≤ 2 * n) leaves.items) }
{
    let mut leaves = Vec::new(alloc);
    for number in numbers {
        let leaf = Tri::new(*number).ok_or("an address")?;
        if leaf.level() > 2 * n {
            return Err("a triangle of the grid".into());
        }
        leaves.push(leaf)?;
    }
    Ok(leaves)
}

/// The addresses of the finest triangles of a grid of 33 points a side.
pub(crate) fn finest(alloc: Global) -> Result<Vec<u32>, Fail> {
    let mut numbers = Vec::new(alloc);
    for number in 2048..4096 {
        numbers.push(number)?;
    }
    Ok(numbers)
}
