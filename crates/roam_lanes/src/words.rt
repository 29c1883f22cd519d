//! Samples of two bytes, the most significant first.

ghost use Rattle.std.specs.Prelude.{◌≡◌, ◌*◌, length};
ghost use Rattle.text_laws.specs.Words.{words_of};

use std::simd::prelude::*;

/// The samples of a block.
const LANES: usize = 8;

/// Writes the samples of these bytes: place i becomes 256 times byte 2i plus byte 2i + 1.
///
/// Cost (not proved): a step for each block of eight samples.
pub fn be16(bytes: &[u8], out: &mut [u16])
    requires two_each { length bytes.now ≡ 2 * length out.old }
    ensures value { out.new ≡ words_of bytes.now }
{
    let blocks = out.len() / LANES;
    for k in 0..blocks {
        be16_block(&bytes[16 * k..16 * k + 16], &mut out[8 * k..8 * k + 8]);
    }
    be16_plain(&bytes[16 * blocks..], &mut out[8 * blocks..]);
}

/// The plain twin of `be16`: sample by sample.
pub fn be16_plain(bytes: &[u8], out: &mut [u16])
    requires two_each { length bytes.now ≡ 2 * length out.old }
    ensures value { out.new ≡ words_of bytes.now }
{
    for i in 0..out.len() {
        out[i] = 256 * u16::from(bytes[2 * i]) + u16::from(bytes[2 * i + 1]);
    }
}

/// A block of eight samples: the bytes of each are exchanged, and then read least significant first.
#[inline(always)]
fn be16_block(bytes: &[u8], out: &mut [u16])
    requires bytes_of_a_block { length bytes.now ≡ 16 }
    requires places_of_a_block { length out.old ≡ 8 }
    ensures { out.new ≡ words_of bytes.now }
{
    let exchanged: u8x16 = u8x16::from_slice(bytes).swizzle([
        1, 0, 3, 2, 5, 4, 7, 6, 9, 8, 11, 10, 13, 12, 15, 14,
    ]);
    u16x8::from_le_bytes(exchanged).copy_to_slice(out);
}
