//! What counters stay within, so that none of 64 bits overflows.

/// The longest way of a camera, the sum of its moves: so a deadline, which is a way that is farther by at most a slack,
/// fits 64 bits.
pub const LONGEST_WAY: u64 = 1 << 62;

/// The count of a pool's splits is below this where one more is made, and so is that of its merges.
pub const MOST_CHANGES: u64 = 1 << 62;

/// The counts of splits, merges and evaluations are below this where a frame begins, which adds at most 2^35 to each.
pub const CHANGES_AT_FRAME: u64 = 1 << 61;
