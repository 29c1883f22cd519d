//! Lines of a script for `roam_script`, worked by hand from the format. `checks/test_scripts.py` has more.

use roam_script::{Limits, Line, ScriptFault, read_line};
use std::test::Fail;

/// What lines are read under: side 5, heights to 255, two planes in force, budgets to 8.
const LIMITS: Limits = Limits {
    n: 2,
    maxval: 255,
    planes: 2,
    line: 1,
    frames: 0,
    budget: 8,
};

#[test]
fn a_line_is_read_or_refused_by_the_format(rt: HostRuntime) {
    let cases: [(&[u8], Result<Line, ScriptFault>); 20] = [
        (b" \tframe\t \r", Ok(Line::Frame)),
        (
            b"camera\t-5  0 \t0040000",
            Ok(Line::Camera {
                x: -5,
                y: 0,
                z: 40_000,
            }),
        ),
        (b"set 1 4 255", Ok(Line::Set { x: 1, y: 4, h: 255 })),
        (
            b"plane 1 -2 3 -4",
            Ok(Line::Plane {
                a: 1,
                b: -2,
                c: 3,
                d: -4,
            }),
        ),
        (b"noplanes", Ok(Line::NoPlanes)),
        (b"budget 7", Ok(Line::Budget { n: 7 })),
        (
            b"raise 1 0 3 2 -10",
            Ok(Line::Raise {
                x0: 1,
                y0: 0,
                x1: 3,
                y1: 2,
                dz: -10,
            }),
        ),
        (b"", Ok(Line::Blank)),
        (b"  # frame \r \r", Ok(Line::Blank)),
        (b"fly", Err(ScriptFault::UnknownCommand)),
        (b"frame\r\r", Err(ScriptFault::UnknownCommand)),
        (b"camera 1 2", Err(ScriptFault::WrongFields)),
        (b"frame # x", Err(ScriptFault::WrongFields)),
        (b"camera 1 two 3", Err(ScriptFault::BadNumber { field: 2 })),
        (
            b"camera 0000000000000000001 2 3",
            Err(ScriptFault::BadNumber { field: 1 }),
        ),
        (b"set 0 5 x", Err(ScriptFault::OutOfRange { field: 2 })),
        (b"set 0 0 256", Err(ScriptFault::OutOfRange { field: 3 })),
        (b"budget 9", Err(ScriptFault::OutOfRange { field: 1 })),
        (
            b"raise 2 0 1 4 0",
            Err(ScriptFault::OutOfRange { field: 3 }),
        ),
        (
            b"raise 0 0 4 4 -65536",
            Err(ScriptFault::OutOfRange { field: 5 }),
        ),
    ];
    for (text, want) in cases {
        assert_eq!(rt; read_line(text, &LIMITS), want);
    }
}

#[test]
fn a_seventh_plane_a_millionth_frame_and_a_late_line_are_refused(rt: HostRuntime) {
    let last = Limits {
        planes: 5,
        line: 10_000_000,
        frames: 999_998,
        ..LIMITS
    };
    assert!(rt; read_line(b"plane 0 0 0 0", &last).is_ok());
    assert_eq!(rt; read_line(b"frame", &last), Ok(Line::Frame));
    let full = Limits {
        planes: 6,
        frames: 999_999,
        ..LIMITS
    };
    let cases: [(&[u8], ScriptFault); 5] = [
        (b"plane 0 0 0 0", ScriptFault::TooManyPlanes),
        (b"plane 0 0 0", ScriptFault::WrongFields),
        (b"plane 0 0 0 z", ScriptFault::BadNumber { field: 4 }),
        (b"frame", ScriptFault::TooManyFrames),
        (b"frame 1", ScriptFault::WrongFields),
    ];
    for (text, fault) in cases {
        assert_eq!(rt; read_line(text, &full), Err(fault));
    }
    assert_eq!(rt; read_line(b"noplanes", &full), Ok(Line::NoPlanes));
    let late = Limits {
        line: 10_000_001,
        ..LIMITS
    };
    let long = [b'#'; 201];
    let cases: [&[u8]; 3] = [b"", b"frame", &long];
    for text in cases {
        assert_eq!(rt; read_line(text, &late), Err(ScriptFault::TooManyLines));
    }
}

#[test]
fn each_refusal_has_its_text(rt: HostRuntime) -> Result<(), Fail> {
    let cases = [
        (ScriptFault::LineTooLong, "line too long"),
        (ScriptFault::UnknownCommand, "unknown command"),
        (ScriptFault::WrongFields, "wrong fields"),
        (ScriptFault::BadNumber { field: 2 }, "bad number in field 2"),
        (
            ScriptFault::OutOfRange { field: 5 },
            "out of range in field 5",
        ),
        (ScriptFault::TooManyLines, "too many lines"),
        (ScriptFault::TooManyFrames, "too many frames"),
        (ScriptFault::TooManyPlanes, "too many planes"),
    ];
    for (fault, text) in cases {
        let told = format!(in rt.alloc(); "{fault}")?;
        assert_eq!(rt; told.as_str(), text);
    }
    Ok(())
}
