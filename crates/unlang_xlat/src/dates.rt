//! The texts of a moment's parts.

ghost use Rattle.std.specs.Prelude.{◌≡◌, ◌++◌, OnOk};
ghost use Rattle.rad_outside.specs.Moments.{IsInTime};
ghost use Rattle.rad_dates.specs.Padded.{digits_in};
ghost use Rattle.unlang_xlat.specs.Texts.{date_text};

use crate::part::DatePart;
use rad_dates::{Civil, date_of, put_digits, put_stamp};
use rad_outside::NoMemory;
use rad_text::put_decimal;
use std::alloc::Global;

/// Adds a date as `YYYYMMDD`.
fn put_day(alloc: Global, text: &mut Vec<u8>, date: Civil) -> Result<(), NoMemory>
    ensures { OnOk result (text.new.items ≡ text.old.items ++ (digits_in 4 date.year ++ (digits_in 2 date.month ++ digits_in 2 date.day))) }
{
    put_digits(alloc, text, 4, u64::from(date.year))?;
    put_digits(alloc, text, 2, u64::from(date.month))?;
    put_digits(alloc, text, 2, u64::from(date.day))
}

/// Adds the text of a part of a moment, in UTC. The moment is in seconds since 1970.
pub fn put_date(
    alloc: Global,
    text: &mut Vec<u8>,
    part: DatePart,
    moment: u64,
) -> Result<(), NoMemory>
    requires { IsInTime moment }
    ensures { OnOk result (text.new.items ≡ text.old.items ++ date_text part moment) }
{
    let date = date_of(moment);
    match part {
        DatePart::Year => put_digits(alloc, text, 4, u64::from(date.year)),
        DatePart::Month => put_digits(alloc, text, 2, u64::from(date.month)),
        DatePart::Day => put_digits(alloc, text, 2, u64::from(date.day)),
        DatePart::Hour => put_digits(alloc, text, 2, u64::from(date.hour)),
        DatePart::Date => put_day(alloc, text, date),
        DatePart::Seconds => put_decimal(alloc, text, moment),
        DatePart::Stamp => put_stamp(alloc, text, date),
    }
}
