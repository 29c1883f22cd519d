//! A law of the words that the contracts speak in.

ghost use Rattle.std.specs.Prelude.{◌≡◌, ℕ, List, IsPermutation, ◌^◌};
ghost use Rattle.draw_buffer.specs.Times.{times};
ghost use Rattle.draw_buffer.specs.declared.exchange.TheConstants.{MOST_TRIANGLES};

/// Two lists in which each number stands as often have the same entries, in another order.
pub fn times_laws()
    ensures permutation { (these those : List ℕ) →
        ((a : ℕ) → times these a ≡ times those a) → IsPermutation these those }
{}

/// What the limit is, as a number. It does nothing.
pub fn limit_laws()
    ensures most_triangles { MOST_TRIANGLES ≡ 2 ^ 29 }
{}
