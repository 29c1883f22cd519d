//! An octave of the heights: values at the points of a lattice, and between them.

ghost use Rattle.std.specs.Prelude.{◌≡◌, ◌+◌, ◌-◌, ◌*◌, ◌/◌, ◌%◌, ◌^◌, ◌<◌, ◌≤◌};
ghost use Rattle.mesh_defs.specs.declared.level.TheConstants.{GREATEST_FILE_LEVEL};
ghost use Rattle.roam_gen.specs.Generated.{mixed, octave_base, lattice_from, between};
ghost use Rattle.roam_gen.specs.Rows.{cell_at, IsCellSmall};

/// The multiplier of the congruence.
const MULTIPLIER: u64 = 6_364_136_223_846_793_005;

/// The increment of the congruence.
const INCREMENT: u64 = 1_442_695_040_888_963_407;

/// A number of 64 bits, mixed.
fn mix(z: u64) -> u64
    ensures { result ≡ mixed z }
{
    let halves = (z >> 32).wrapping_mul(z % (1 << 32));
    z.wrapping_mul(MULTIPLIER)
        .wrapping_add(halves)
        .wrapping_add(INCREMENT)
}

/// What the values of an octave's lattice begin with.
pub(crate) fn base_of(seed: u32, octave: u32) -> u64
    ensures { result ≡ octave_base seed octave }
{
    mix(mix(u64::from(seed)).wrapping_add(u64::from(octave)))
}

/// The value of a point of an octave's lattice, 0 to 65535.
pub(crate) fn lattice_value(base: u64, column: u32, line: u32) -> u64
    ensures value { result ≡ lattice_from base column line }
    ensures small { result < 2 ^ 16 }
{
    let along = mix(base.wrapping_add(u64::from(column)));
    mix(mix(along.wrapping_add(u64::from(line)))) >> 48
}

/// A square of an octave's lattice.
#[derive(Clone, Copy)]
pub(crate) struct Cell {
    /// The column of its left corners in the lattice.
    pub(crate) column: u32,
    /// The value at the lower left corner.
    pub(crate) low_left: u64,
    /// The value at the lower right corner.
    pub(crate) low_right: u64,
    /// The value at the upper left corner.
    pub(crate) high_left: u64,
    /// The value at the upper right corner.
    pub(crate) high_right: u64,
}

impl Cell {
    /// The square whose lower left corner is this point of the lattice.
    pub(crate) fn at(base: u64, column: u32, line: u32) -> Cell
        requires columns { column < 2 ^ 16 }
        requires lines { line < 2 ^ 16 }
        ensures value { result ≡ cell_at base column line }
        ensures small { IsCellSmall result }
    {
        Cell {
            column,
            low_left: lattice_value(base, column, line),
            low_right: lattice_value(base, column + 1, line),
            high_left: lattice_value(base, column, line + 1),
            high_right: lattice_value(base, column + 1, line + 1),
        }
    }

    /// The square of this column in the same row of the lattice: this one, if it is that.
    pub(crate) fn moved_to(self, base: u64, column: u32, line: u32) -> Cell
        requires columns { column < 2 ^ 16 }
        requires lines { line < 2 ^ 16 }
        requires here { self ≡ cell_at base self.column line }
        requires small { IsCellSmall self }
        ensures value { result ≡ cell_at base column line }
        ensures small { IsCellSmall result }
    {
        if column == self.column {
            self
        } else {
            Cell::at(base, column, line)
        }
    }

    /// The value at (a, b) of the square, of which a side has 2^k grid steps.
    pub(crate) fn value(&self, k: u32, a: u64, b: u64) -> u64
        requires octave { k ≤ GREATEST_FILE_LEVEL }
        requires columns { a < 2 ^ k }
        requires lines { b < 2 ^ k }
        requires small { IsCellSmall self.now }
        ensures value { result ≡ between (2 ^ k) a b self.now.low_left self.now.low_right
            self.now.high_left self.now.high_right }
        ensures bounded { result ≤ 65535 }
    {
        let width = width_of(k);
        let low = weighted(self.low_left, width - a, width - b)
            + weighted(self.low_right, a, width - b);
        let high = weighted(self.high_left, width - a, b) + weighted(self.high_right, a, b);
        (low + high) >> (2 * k)
    }
}

/// How many grid steps a square of octave k has, which is also how many squares the grid of level k has.
pub(crate) fn width_of(k: u32) -> u64
    requires { k ≤ GREATEST_FILE_LEVEL }
    ensures value { result ≡ 2 ^ k }
    ensures small { result ≤ 2048 }
{
    1 << k
}

/// The last column and row of the grid of this level.
pub(crate) fn last_of(n: u32) -> u32
    requires { n ≤ GREATEST_FILE_LEVEL }
    ensures value { result ≡ 2 ^ n }
    ensures small { result ≤ 2048 }
{
    width_of(n) as u32
}

/// How far into a square of octave k this coordinate is.
pub(crate) fn within(coordinate: u32, k: u32) -> u64
    requires { k ≤ GREATEST_FILE_LEVEL }
    ensures { result ≡ coordinate % 2 ^ k }
{
    u64::from(coordinate) & ((1 << k) - 1)
}

/// A value times two lengths.
fn weighted(value: u64, across: u64, up: u64) -> u64
    requires small { value < 2 ^ 16 }
    requires columns { across ≤ 2 ^ GREATEST_FILE_LEVEL }
    requires lines { up ≤ 2 ^ GREATEST_FILE_LEVEL }
    ensures value { result ≡ value * across * up }
    ensures bounded { result ≤ 2 ^ 38 }
{
    value * across * up
}
