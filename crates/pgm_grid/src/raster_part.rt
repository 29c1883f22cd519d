//! What a reader knows besides the samples that are whole.

/// How many samples are wanted, and how great they may be.
#[derive(Clone, Copy)]
pub(crate) struct Limits {
    /// The number of samples.
    pub(crate) count: usize,
    /// The greatest sample that is allowed.
    pub(crate) maxval: u16,
}

/// The digits of a sample so far.
#[derive(Clone, Copy)]
pub(crate) struct Digits {
    /// How many there are, at most nine.
    pub(crate) count: u32,
    /// The number that they are.
    pub(crate) value: u32,
}

/// What has come of the sample that is not whole.
#[derive(Clone, Copy)]
pub(crate) enum Part {
    /// Nothing: a sample is one byte.
    Bytes,
    /// The first of two bytes, if it has come.
    Words(Option<u8>),
    /// Some digits.
    Plain(Digits),
}
