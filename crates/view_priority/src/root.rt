//! Square roots of whole numbers.

ghost use Rattle.std.specs.Prelude.{◌≡◌, ◌+◌, ◌*◌, ◌<◌, ◌≤◌, ◌^◌};

/// The square root, rounded down, by Newton's method.
///
/// From above, the middle between a root and the number over it is a better root, until its square is within the
/// number. The plain form is std's `isqrt`, which halves an interval 32 times; it has the same clauses.
/// Cost (not proved): about three divisions.
/// Source: Newton's method for square roots.
pub(crate) fn square_root(number: u64) -> u64
    requires { number < 2 ^ 62 }
    ensures square_within { result * result ≤ number }
    ensures next_square_above { number < (result + 1) * (result + 1) }
{
    let mut root = estimate(number);
    while number < root * root {
        root = (root + number / root) / 2;
    }
    root
}

/// The square root or a number above it, by less than a fifteenth: the first step of Newton's method from the power
/// of 2 with half as many digits, which takes no division.
fn estimate(number: u64) -> u64
    requires small { number < 2 ^ 62 }
    ensures small { result ≤ 2 ^ 31 }
    ensures above { number < (result + 1) * (result + 1) }
{
    let half = (64 - number.leading_zeros()) / 2;
    ((1 << half) + (number >> half)) / 2
}
