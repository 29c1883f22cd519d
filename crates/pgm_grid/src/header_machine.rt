//! The header as a machine of bytes, without places and without a limit of length.

ghost use Rattle.std.specs.Prelude.{◌≡◌};
ghost use Rattle.std.specs.Char.{is_ascii_digit};
ghost use Rattle.text_laws.specs.Blanks.{is_white, is_line_end};
ghost use Rattle.pgm_grid.specs.HeaderMachine.{step_of, gap_step, number_step, number_ended, IsState, IsStep};

/// The values that stand in the text of a header, whether they are accepted or not.
#[derive(Clone, Copy)]
pub struct HeaderValues {
    /// Whether the magic is `P2`.
    pub plain: bool,
    /// The first number.
    pub width: u32,
    /// The second number.
    pub height: u32,
    /// The third number.
    pub maxval: u32,
}

/// The parts of a header that were read whole.
#[derive(Clone, Copy)]
pub(crate) enum Fields {
    /// The magic.
    Magic {
        plain: bool,
    },
    /// The magic and the width.
    Width {
        plain: bool,
        width: u32,
    },
    /// The magic, the width and the height.
    Height {
        plain: bool,
        width: u32,
        height: u32,
    },
}

/// What the bytes so far have come to.
#[derive(Clone, Copy)]
pub(crate) enum State {
    /// There is no byte.
    Start,
    /// The `P` of the magic.
    Letter,
    /// The magic, and nothing after it.
    Named {
        plain: bool,
    },
    /// In the gap after these fields, outside comments.
    Gap {
        fields: Fields,
    },
    /// In a comment of the gap after these fields.
    Comment {
        fields: Fields,
    },
    /// In the number after these fields: how many digits there are, and the number that they are.
    Number {
        fields: Fields,
        digits: u32,
        value: u32,
    },
}

/// What one byte more makes.
#[derive(Clone, Copy)]
pub(crate) enum Step {
    /// The header goes on.
    Goes(State),
    /// The byte ends the header.
    Ends(HeaderValues),
    /// The byte continues no header.
    Fails,
}

/// Whether the byte is a blank, a TAB, a CR or an LF.
fn is_whitespace(byte: u8) -> bool
    ensures { result ≡ is_white byte }
{
    byte == b' ' || byte == b'\t' || is_newline(byte)
}

/// Whether the byte is a CR or an LF.
fn is_newline(byte: u8) -> bool
    ensures { result ≡ is_line_end byte }
{
    byte == b'\r' || byte == b'\n'
}

/// Whether the byte is a decimal digit.
fn is_decimal(byte: u8) -> bool
    ensures { result ≡ is_ascii_digit byte }
{
    byte >= b'0' && byte <= b'9'
}

/// What a byte makes of a state.
pub(crate) fn step_from(state: State, byte: u8) -> Step
    requires { IsState state }
    ensures value { result ≡ step_of state byte }
    ensures valid { IsStep result }
{
    match state {
        State::Start => if byte == b'P' {
            Step::Goes(State::Letter)
        } else {
            Step::Fails
        },
        State::Letter => name_step(byte),
        State::Named { plain } => {
            if is_whitespace(byte) {
                Step::Goes(State::Gap {
                    fields: Fields::Magic { plain },
                })
            } else {
                Step::Fails
            }
        }
        State::Gap { fields } => in_gap(fields, byte),
        State::Comment { fields } => {
            if is_newline(byte) {
                Step::Goes(State::Gap { fields })
            } else {
                Step::Goes(State::Comment { fields })
            }
        }
        State::Number {
            fields,
            digits,
            value,
        } => in_number(fields, digits, value, byte),
    }
}

/// What a byte makes after the `P` of the magic.
fn name_step(byte: u8) -> Step
    ensures value { result ≡ step_of State.Letter byte }
    ensures valid { IsStep result }
{
    if byte == b'2' {
        Step::Goes(State::Named { plain: true })
    } else if byte == b'5' {
        Step::Goes(State::Named { plain: false })
    } else {
        Step::Fails
    }
}

/// What a byte makes in a gap, outside comments.
fn in_gap(fields: Fields, byte: u8) -> Step
    ensures value { result ≡ gap_step fields byte }
    ensures valid { IsStep result }
{
    if is_whitespace(byte) {
        Step::Goes(State::Gap { fields })
    } else if byte == b'#' {
        Step::Goes(State::Comment { fields })
    } else if is_decimal(byte) {
        let value = (byte - b'0') as u32;
        Step::Goes(State::Number {
            fields,
            digits: 1,
            value,
        })
    } else {
        Step::Fails
    }
}

/// What a byte makes after some digits of a number.
fn in_number(fields: Fields, digits: u32, value: u32, byte: u8) -> Step
    requires { IsState (State.Number fields digits value) }
    ensures value { result ≡ number_step fields digits value byte }
    ensures valid { IsStep result }
{
    if is_whitespace(byte) {
        after_number(fields, value)
    } else if is_decimal(byte) && digits < 9 {
        let value = 10 * value + (byte - b'0') as u32;
        Step::Goes(State::Number {
            fields,
            digits: digits + 1,
            value,
        })
    } else {
        Step::Fails
    }
}

/// What the whitespace makes that ends a number.
fn after_number(fields: Fields, value: u32) -> Step
    ensures value { result ≡ number_ended fields value }
    ensures valid { IsStep result }
{
    match fields {
        Fields::Magic { plain } => Step::Goes(State::Gap {
            fields: Fields::Width {
                plain,
                width: value,
            },
        }),
        Fields::Width { plain, width } => {
            Step::Goes(State::Gap {
                fields: Fields::Height {
                    plain,
                    width,
                    height: value,
                },
            })
        }
        Fields::Height {
            plain,
            width,
            height,
        } => {
            Step::Ends(HeaderValues {
                plain,
                width,
                height,
                maxval: value,
            })
        }
    }
}
