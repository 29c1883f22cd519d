//! Thickness over distance.

ghost use Rattle.std.specs.Prelude.{◌≡◌, ◌*◌, ◌≤◌, ◌^◌};
ghost use Rattle.mesh_defs.specs.Priority.{above, ratio_of, seen_ratio};

use mesh_defs::Mark;

/// 65,536 times the thickness (in half units of height) over the distance (in world units) plus 1, rounded down.
///
/// Source: in the place of the projected error of Duchaineau et al., "ROAMing Terrain", IEEE Visualization
/// 1997; a ratio of whole numbers needs no projection, and its order is exact.
pub fn priority(thickness: u32, d: u64) -> u64
    requires { d ≤ 2 ^ 33 }
    ensures value { result ≡ ratio_of thickness d }
    ensures high { result ≤ 65536 * thickness }
{
    65536 * u64::from(thickness) / (d + 1)
}

/// The priority of what has this mark: 0 for what is Outside, and for what is no more than the threshold.
pub(crate) fn seen_priority(threshold: u64, mark: Mark, thickness: u32, d: u64) -> u64
    requires { d ≤ 2 ^ 33 }
    ensures { result ≡ above threshold (seen_ratio mark thickness d) }
{
    let ratio = seen_by(mark, thickness, d);
    if threshold < ratio { ratio } else { 0 }
}

/// The ratio of what has this mark: 0 for what is Outside.
fn seen_by(mark: Mark, thickness: u32, d: u64) -> u64
    requires { d ≤ 2 ^ 33 }
    ensures { result ≡ seen_ratio mark thickness d }
{
    match mark {
        Mark::Outside => 0,
        Mark::Inside | Mark::Cut => priority(thickness, d),
    }
}
