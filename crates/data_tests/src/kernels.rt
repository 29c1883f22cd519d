//! Each kernel of `roam_lanes` beside its plain twin, at lengths around a block, and samples worked by hand.

ghost use Rattle.std.specs.Prelude.{◌≤◌, ◌<◌, ◌≤ℤ◌};
ghost use Rattle.roam_lanes.specs.Raising.{least_change, greatest_change};

use roam_lanes::{
    be16, be16_plain, first_above, first_above_plain, raise_row, raise_row_plain, range,
    range_plain,
};

/// A row of 40 samples, none of them above 60,000.
fn row_of_forty() -> [u16; 40] {
    let mut row = [0; 40];
    let mut sample = 1000u16;
    for place in &mut row {
        sample = sample.wrapping_mul(31).wrapping_add(131) % 60_000;
        *place = sample;
    }
    row
}

/// The samples that so many pairs of these bytes are, by the kernel and by its twin.
fn samples_of(bytes: &[u8; 80], length: usize) -> ([u16; 40], [u16; 40])
    requires { length ≤ 40 }
{
    let (mut lanes, mut plain) = ([9u16; 40], [9u16; 40]);
    be16(&bytes[..2 * length], &mut lanes[..length]);
    be16_plain(&bytes[..2 * length], &mut plain[..length]);
    (lanes, plain)
}

#[test]
fn two_bytes_are_a_sample_at_every_length(rt: HostRuntime) {
    let mut bytes = [0u8; 80];
    let mut byte = 7u8;
    for place in &mut bytes {
        byte = byte.wrapping_mul(11).wrapping_add(41);
        *place = byte;
    }
    for length in 0..=40 {
        let (lanes, plain) = samples_of(&bytes, length);
        assert_eq!(rt; lanes, plain, "of {length} samples");
    }
    let mut samples = [0u16; 9];
    be16(
        b"\0\x01\x01\0\xff\xfe\x12\x34\0\0\0\x0a\x7f\xff\x80\0\xff\xff",
        &mut samples,
    );
    assert_eq!(rt;
        samples,
        [1, 256, 65534, 0x1234, 0, 10, 32767, 32768, 65535]
    );
}

/// Where a sample above 500, above 501, and above 500 in front of it is found in a row with 501 at this place.
fn places_found(place: usize) -> [Option<usize>; 5]
    requires { place < 40 }
{
    let mut row = [500u16; 40];
    row[place] = 501;
    let front = &row[..place.min(row.len())];
    [
        first_above(&row, 500),
        first_above_plain(&row, 500),
        first_above(&row, 501),
        first_above(front, 500),
        first_above_plain(front, 500),
    ]
}

#[test]
fn the_first_sample_above_is_found_at_every_place(rt: HostRuntime) {
    for place in 0..40 {
        let found = Some(place);
        assert_eq!(rt;
            places_found(place),
            [found, found, None, None, None],
            "at {place}"
        );
    }
    assert_eq!(rt; first_above(&[3, 65535, 7, 65535], 65534), Some(1));
}

#[test]
fn the_range_is_found_at_every_length(rt: HostRuntime) {
    let row = row_of_forty();
    for length in 0..=40 {
        assert_eq!(rt;
            range(&row[..length]),
            range_plain(&row[..length]),
            "of {length} samples"
        );
    }
    let cases: [(&[u16], Option<(u16, u16)>); 4] = [
        (&[], None),
        (&[7], Some((7, 7))),
        // In the tail, and in a block.
        (
            &[9, 9, 9, 9, 9, 9, 9, 9, 9, 9, 65535, 0, 9],
            Some((0, 65535)),
        ),
        (
            &[9, 65535, 0, 9, 9, 9, 9, 9, 9, 9, 9, 9, 9],
            Some((0, 65535)),
        ),
    ];
    for (samples, want) in cases {
        assert_eq!(rt; range(samples), want);
    }
}

/// Raises a row by the lanes and a row by the plain twin, and answers whether that could be asked.
fn raise_both(lanes: &mut [u16], plain: &mut [u16], delta: i32, maxval: u16) -> bool
    requires at_least { least_change ≤ℤ delta }
    requires at_most { delta ≤ℤ greatest_change }
{
    if first_above(lanes, maxval).is_some() {
        return false;
    }
    if first_above_plain(plain, maxval).is_some() {
        return false;
    }
    raise_row(lanes, delta, maxval);
    raise_row_plain(plain, delta, maxval);
    true
}

#[test]
fn a_row_is_raised_and_lowered_within_its_bounds(rt: HostRuntime) {
    for length in 0..=40 {
        let (mut lanes, mut plain) = (row_of_forty(), row_of_forty());
        assert!(rt; raise_both(&mut lanes[..length], &mut plain[..length], 3000, 60_000));
        assert_eq!(rt; lanes, plain, "{length} samples, raised");
        assert!(rt; raise_both(&mut lanes[..length], &mut plain[..length], -40_000, 60_000));
        assert_eq!(rt; lanes, plain, "{length} samples, lowered");
    }
    let mut lanes = [0, 1, 99, 100, 50, 51, 0, 0, 60];
    let mut plain = lanes;
    assert!(rt; raise_both(&mut lanes, &mut plain, 50, 100));
    assert_eq!(rt; lanes, [50, 51, 100, 100, 100, 100, 50, 50, 100]);
    assert!(rt; raise_both(&mut lanes, &mut plain, -51, 100));
    assert_eq!(rt; lanes, [0, 0, 49, 49, 49, 49, 0, 0, 49]);
    assert!(rt; raise_both(&mut lanes, &mut plain, 65535, 100));
    assert_eq!(rt; (lanes, plain), ([100; 9], [100; 9]));
}
