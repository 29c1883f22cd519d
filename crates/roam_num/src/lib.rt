//! Numbers as decimal texts: reading and writing them, both exact.
//!
//! For every crate that reads words, scripts or certificates, and that writes reports and meshes.
//! What is read is 1 to 19 digits, or an optional `-` and 1 to 18 digits, so that no value overflows;
//! what is written has no leading zeros. Two calls know a decimal point: thousandths are read, and a
//! fraction over a power of 2 is written exactly. The texts are bytes: lines and words are cut elsewhere.
//! No call takes memory.

#![tactic(auto)]

mod laws;
mod places;
mod reading;
mod writing;

pub use laws::{limit_laws, numbers_and_texts};
pub use places::{LONGEST_DECIMAL, MOST_PLACES, push_decimal, read_thousandths};
pub use reading::{read_dec, read_signed};
pub use writing::{LONGEST_TEXT, dec, push_bytes, push_number, put_dec};
