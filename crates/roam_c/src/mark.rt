//! The mark of a full handle.

/// The number at the head of a full handle, which no other one has: a random one.
pub(crate) const MARK: u64 = 0x9C3B_52E1_7F0D_A468;
