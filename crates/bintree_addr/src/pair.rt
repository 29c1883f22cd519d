//! The address across a base, by a step up two levels.

ghost use Rattle.std.specs.Prelude.{◌≡◌, ℕ, ◌^◌, ◌<◌, ◌≤◌, ◌↔◌, IfSome};
ghost use Rattle.mesh_defs.specs.Triangle.{level_of};
ghost use Rattle.bintree_laws.specs.Pair.{IsPair};

/// The other address of the level whose triangle has the same base.
pub fn address_across(number: u32) -> Option<u32>
    requires low { 2 ≤ number }
    requires high { number < 2 ^ 30 }
    ensures pair { (c : ℕ) → ((result ≡ Some c) ↔ IsPair (level_of number) number c) }
    ensures range { IfSome result (λ c. (2 ≤ c) × (c < 2 ^ 30)) }
{
    match number {
        0..4 => Some(5 - number),
        4..8 => None,
        _ => match number % 4 {
            0 => Some(number + 3),
            3 => Some(number - 3),
            last => {
                let above = address_across(number / 4)?;
                Some(4 * above + 3 - last)
            }
        },
    }
}
