//! Texts and numbers of `roam_num`, worked by hand.

use arrayvec::ArrayVec;
use roam_num::{
    dec, push_bytes, push_decimal, push_number, read_dec, read_signed, read_thousandths,
};

#[test]
fn numbers_are_read_up_to_their_most_digits(rt: HostRuntime) {
    let cases: [(&[u8], Option<u64>); 8] = [
        (b"0", Some(0)),
        (b"007", Some(7)),
        (b"9999999999999999999", Some(9_999_999_999_999_999_999)),
        (b"00000000000000000001", None),
        (b"", None),
        (b"-1", None),
        (b"12a", None),
        (b"1 ", None),
    ];
    for (text, number) in cases {
        assert_eq!(rt; read_dec(text), number);
    }
    let cases: [(&[u8], Option<i64>); 9] = [
        (b"0", Some(0)),
        (b"-0", Some(0)),
        (b"-29", Some(-29)),
        (b"999999999999999999", Some(999_999_999_999_999_999)),
        (b"-999999999999999999", Some(-999_999_999_999_999_999)),
        (b"1000000000000000000", None),
        (b"-", None),
        (b"--1", None),
        (b"+1", None),
    ];
    for (text, number) in cases {
        assert_eq!(rt; read_signed(text), number);
    }
    let cases: [(&[u8], Option<u64>); 12] = [
        (b"20", Some(20_000)),
        (b"2.5", Some(2_500)),
        (b"0.125", Some(125)),
        (b"007.050", Some(7_050)),
        (b"65535.999", Some(65_535_999)),
        (b"9999999999999999.999", Some(9_999_999_999_999_999_999)),
        (b"10000000000000000", None),
        (b"1.2345", None),
        (b".5", None),
        (b"5.", None),
        (b"1.2.3", None),
        (b"-1", None),
    ];
    for (text, count) in cases {
        assert_eq!(rt; read_thousandths(text), count);
    }
}

#[test]
fn numbers_and_fractions_over_powers_of_two_are_written_exactly(rt: HostRuntime) {
    let cases: [(u32, u32, &[u8]); 7] = [
        (0, 1, b"0"),
        (20, 1, b"10"),
        (3, 2, b"0.75"),
        (23_904, 8, b"93.375"),
        (1, 11, b"0.00048828125"),
        (134_217_727, 11, b"65535.99951171875"),
        (7, 0, b"7"),
    ];
    for (count, n, text) in cases {
        let mut written = ArrayVec::<u8, 40>::new();
        push_decimal(&mut written, count, n);
        assert_eq!(rt; written.as_slice(), text);
    }
    let cases: [(i64, &[u8]); 4] = [
        (0, b"0"),
        (-7, b"-7"),
        (1_310_720, b"1310720"),
        (i64::MIN, b"-9223372036854775808"),
    ];
    for (number, text) in cases {
        assert_eq!(rt; dec(number).as_slice(), text);
    }
    let mut text = ArrayVec::<u8, 26>::new();
    push_bytes(&mut text, b"line ");
    push_number(&mut text, u64::MAX);
    push_bytes(&mut text, b".");
    assert_eq!(rt; text.as_slice(), b"line 18446744073709551615.".as_slice());
}
