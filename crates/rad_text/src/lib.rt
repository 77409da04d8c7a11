//! The words of readers, once: what a reading gives or its first fault, blanks, lines, numerals, addresses, paths and
//! spots in a text.
//! It has no state; its one model is a text as a list of octets, and a reading as a function of it that gives a value
//! and the rest, or a fault of the reader's own.
//! Above it stand the readers of dictionaries, pairs, users files and configurations.
#![tactic(auto)]

mod addresses;
mod blanks;
mod laws;
mod lines;
mod numerals;
mod paths;
mod read;
mod spots;

pub use addresses::{address_of, put_decimal, put_dotted};
pub use blanks::{after_blanks, is_blank};
pub use laws::{
    addresses_are_read_back, lines_end_as_they_are_written, numerals_are_read_by_their_digits,
};
pub use lines::{after_line_end, first_line};
pub use numerals::{digit_value, is_digit, is_hexadecimal, number_at, number_of, numeral_of};
pub use paths::{beside, folder_len, joined, place_at};
pub use read::ReadError;
pub use spots::{Spot, spot_of};
