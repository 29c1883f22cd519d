//! What the first bytes of a refused grid say.

/// The first bytes of a file, read as the header of a PGM file as far as they go.
#[derive(Clone, Copy)]
pub(crate) struct HeadNumbers {
    /// Whether the magic is that of a plain raster.
    pub(crate) plain: bool,
    /// Width, height and maxval, as far as they ended.
    pub(crate) numbers: [Option<u32>; 3],
    /// How many bytes the header has, where it ended.
    pub(crate) end: Option<u64>,
}

/// Where the reading of a header stands.
#[derive(Clone, Copy, PartialEq, Eq)]
enum Place {
    /// Between two parts.
    Gap,
    /// In a comment.
    Comment,
    /// In a number.
    Number,
}

/// What was read so far.
#[derive(Drop)]
struct Reading {
    place: Place,
    value: u32,
    first: Option<u32>,
    second: Option<u32>,
}

impl Reading {
    /// Takes a byte; answers the third number where this byte ends it.
    fn take(&mut self, byte: u8) -> Option<u32> {
        match (self.place, byte) {
            (Place::Comment, b'\n' | b'\r') => self.place = Place::Gap,
            (Place::Comment, _) => {}
            (_, b'0'..=b'9') => {
                self.place = Place::Number;
                self.value = self
                    .value
                    .saturating_mul(10)
                    .saturating_add(u32::from(byte - b'0'));
            }
            (Place::Number, _) => return self.end_number(),
            (Place::Gap, b'#') => self.place = Place::Comment,
            (Place::Gap, _) => {}
        }
        None
    }

    /// Ends a number; answers it if it is the third one.
    fn end_number(&mut self) -> Option<u32> {
        let value = self.value;
        self.value = 0;
        self.place = Place::Gap;
        if self.first.is_none() {
            self.first = Some(value);
            return None;
        }
        if self.second.is_none() {
            self.second = Some(value);
            return None;
        }
        Some(value)
    }
}

/// Reads width, height and maxval behind the two bytes of the magic.
pub(crate) fn read_head(head: &[u8]) -> HeadNumbers {
    let mut reading = Reading {
        place: Place::Gap,
        value: 0,
        first: None,
        second: None,
    };
    let plain = head.starts_with(b"P2");
    for (at, byte) in head.iter().enumerate() {
        if at < 2 {
            continue;
        }
        if let Some(maxval) = reading.take(*byte) {
            return HeadNumbers {
                plain,
                numbers: [reading.first, reading.second, Some(maxval)],
                end: Some((at as u64).saturating_add(1)),
            };
        }
    }
    HeadNumbers {
        plain,
        numbers: [reading.first, reading.second, None],
        end: None,
    }
}
