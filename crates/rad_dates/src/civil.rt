//! The date of a moment.

ghost use Rattle.std.specs.Prelude.{◌≡◌};
ghost use Rattle.rad_dates.specs.Calendar.{IsDate};
ghost use Rattle.rad_outside.specs.Moments.{IsInTime};
ghost use Rattle.rad_dates.specs.Dates.{date_of};

use jiff::Timestamp;
use jiff::tz::Offset;

/// A date and time in UTC: month and day from 1, the weekday from 0 for Sunday.
#[derive(Clone, Copy, Debug, PartialEq, Eq)]
pub struct Civil {
    pub year: u32,
    pub month: u8,
    pub day: u8,
    pub hour: u8,
    pub minute: u8,
    pub second: u8,
    pub weekday: u8,
}

/// The date and time of a moment in seconds since 1970 (POSIX), 250,000,000,000 at most, which lies in the year 9892.
pub fn date_of(moment: u64) -> Civil
    requires { IsInTime moment }
    ensures exact { result ≡ date_of moment }
    ensures date { IsDate result }
{
    let shown = Offset::UTC.to_datetime(Timestamp::constant(moment as i64, 0));
    Civil {
        year: shown.year() as u32,
        month: shown.month() as u8,
        day: shown.day() as u8,
        hour: shown.hour() as u8,
        minute: shown.minute() as u8,
        second: shown.second() as u8,
        weekday: shown.weekday().to_sunday_zero_offset() as u8,
    }
}
