//! Dates and times of moments in UTC, and their texts.
//! It has no state; its one model is the calendar, as the days of years and months, and a moment as the seconds since the
//! first of 1970 in UTC, without leap seconds.
//! Above it stand the expansions, the modules and the programs that show when something happened.
#![tactic(auto)]

mod civil;
mod laws;
mod padded;
mod texts;

pub use civil::{Civil, date_of};
pub use laws::{dates_are_of_their_seconds, weekdays_go_round};
pub use padded::{put_digits, put_left, put_number, put_right};
pub use texts::{put_date_time, put_stamp, stamp};
