//! The generated script.

ghost use Rattle.std.specs.Prelude.{◌≡◌, ◌-◌, ◌*◌, ◌/◌, ◌^◌, ◌≤◌, Some, pos, slice_get};
ghost use Rattle.mesh_defs.specs.declared.level.TheConstants.{GREATEST_FILE_LEVEL};
ghost use Rattle.roam_gen.specs.Generated.{camera_line, edit_line, made_lines};
ghost use Rattle.roam_gen.specs.LineAt.{line_at};

use crate::octave::{base_of, lattice_value, width_of};
use roam_script::Line;

/// The number of lines of a generated script.
pub(crate) const LINES: u32 = 105;

/// The lines of ten frames: two for each, and one more for the tenth.
const LINES_OF_TEN: u32 = 21;

/// The world units of a grid step for which the camera's way is made.
const SPACING: u64 = 30;

/// The height of the camera.
const CAMERA_HEIGHT: i64 = 40_000;

/// Line i, counted from 1, of the script of this level and seed.
///
/// Cost (not proved): a few steps. Takes no memory.
pub fn gen_line(n: u32, seed: u32, i: u32) -> Line
    requires n_low { 1 ≤ n }
    requires n_high { n ≤ GREATEST_FILE_LEVEL }
    requires first { 1 ≤ i }
    requires last { i ≤ 105 }
    ensures value { slice_get (made_lines n seed) (i - 1) ≡ Some result }
    ensures there { result ≡ line_at n seed i }
{
    line_in_tens(n, seed, i)
}

/// The line of this number, by the tens of frames before it and its place among the next 21 lines.
fn line_in_tens(n: u32, seed: u32, i: u32) -> Line
    requires n_high { n ≤ GREATEST_FILE_LEVEL }
    requires first { 1 ≤ i }
    requires last { i ≤ 105 }
    ensures { result ≡ line_at n seed i }
{
    let tens = (i - 1) / LINES_OF_TEN;
    let place = (i - 1) % LINES_OF_TEN;
    if place < 18 {
        let frame = 10 * tens + place / 2 + 1;
        return if place % 2 == 0 {
            camera_of(n, frame)
        } else {
            Line::Frame
        };
    }
    let frame = 10 * tens + 10;
    match place {
        18 => camera_of(n, frame),
        19 => edit_of(n, seed, frame),
        _ => Line::Frame,
    }
}

/// Where the camera is put before a frame.
fn camera_of(n: u32, frame: u32) -> Line
    requires n_high { n ≤ GREATEST_FILE_LEVEL }
    requires frame { frame ≤ 51 }
    ensures { result ≡ camera_line n frame }
{
    Line::Camera {
        x: way(n, frame),
        y: way(n, 51 - frame),
        z: CAMERA_HEIGHT,
    }
}

/// So many of the 51 parts of a side, in world units.
fn way(n: u32, parts: u32) -> i64
    requires n_high { n ≤ GREATEST_FILE_LEVEL }
    requires parts { parts ≤ 51 }
    ensures { result ≡ pos (2 ^ n * 30 * parts / 51) }
{
    let side = width_of(n) * SPACING;
    (side * u64::from(parts) / 51) as i64
}

/// Which height is set before a tenth frame.
fn edit_of(n: u32, seed: u32, frame: u32) -> Line
    requires n_high { n ≤ GREATEST_FILE_LEVEL }
    requires frame { frame ≤ 51 }
    ensures { result ≡ edit_line n seed frame }
{
    let side = (1 << n) + 1;
    Line::Set {
        x: 7 * frame % side,
        y: 11 * frame % side,
        h: lattice_value(base_of(seed, 0), frame, frame) as u16,
    }
}
