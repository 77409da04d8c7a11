//! Moments as texts.

ghost use Rattle.std.specs.Prelude.{◌≡◌, ◌++◌, ◌*◌, ◌<◌, ◌≤◌, length, OnOk, IfOk};
ghost use Rattle.std.specs.Int.{IsInRange};
ghost use Rattle.rad_dates.specs.Calendar.{IsDate};
ghost use Rattle.rad_outside.specs.Moments.{IsInTime};
ghost use Rattle.rad_dates.specs.Stamp.{name_then, weekday_then, month_then, time_text, day_text, stamp_text, stamp, date_time_text};

use crate::civil::{Civil, date_of};
use crate::padded::{put_digits, put_number};
use rad_outside::{NoMemory, Octets};
use std::alloc::Global;

/// Adds the name at a place among names of three letters, and a blank.
fn put_name(text: &mut Vec<u8>, names: &[u8], place: u8) -> Result<(), NoMemory>
    requires { 3 * place ≤ length names.now }
    ensures { OnOk result (text.new.items ≡ text.old.items ++ name_then names.now place) }
{
    let (_, from) = names.split_at(3 * usize::from(place));
    let (name, _) = from.split_at(from.len().min(3));
    text.extend_from_slice(name)?;
    text.push(b' ')?;
    Ok(())
}

/// Adds the name of a weekday, and a blank.
#[tactic(auto, unfolding(crate::specs::Stamp::weekday_then))]
fn put_weekday(text: &mut Vec<u8>, weekday: u8) -> Result<(), NoMemory>
    requires { weekday < 7 }
    ensures { OnOk result (text.new.items ≡ text.old.items ++ weekday_then weekday) }
{
    put_name(text, b"SunMonTueWedThuFriSat", weekday)
}

/// Adds the name of a month, and a blank.
#[tactic(auto, unfolding(crate::specs::Stamp::month_then))]
fn put_month(text: &mut Vec<u8>, month: u8) -> Result<(), NoMemory>
    requires { IsInRange 1 12 month }
    ensures { OnOk result (text.new.items ≡ text.old.items ++ month_then month) }
{
    put_name(text, b"JanFebMarAprMayJunJulAugSepOctNovDec", month - 1)
}

/// Adds a time of day as `00:16:40`.
fn put_time(alloc: Global, text: &mut Vec<u8>, date: Civil) -> Result<(), NoMemory>
    ensures { OnOk result (text.new.items ≡ text.old.items ++ time_text date) }
{
    put_digits(alloc, text, 2, u64::from(date.hour))?;
    text.push(b':')?;
    put_digits(alloc, text, 2, u64::from(date.minute))?;
    text.push(b':')?;
    put_digits(alloc, text, 2, u64::from(date.second))
}

/// Adds a date as `Thu Jan  1`.
fn put_day(alloc: Global, text: &mut Vec<u8>, date: Civil) -> Result<(), NoMemory>
    requires { IsDate date }
    ensures { OnOk result (text.new.items ≡ text.old.items ++ day_text date) }
{
    put_weekday(text, date.weekday)?;
    put_month(text, date.month)?;
    put_number(alloc, text, b' ', 2, u64::from(date.day))
}

/// Adds a date and time as `Thu Jan  1 00:16:40 1970` (asctime(3), without its newline).
#[tactic(auto, unfolding(crate::specs::Stamp::stamp_text))]
pub fn put_stamp(alloc: Global, text: &mut Vec<u8>, date: Civil) -> Result<(), NoMemory>
    requires { IsDate date }
    ensures { OnOk result (text.new.items ≡ text.old.items ++ stamp_text date) }
{
    put_day(alloc, text, date)?;
    text.push(b' ')?;
    put_time(alloc, text, date)?;
    text.push(b' ')?;
    put_digits(alloc, text, 4, u64::from(date.year))
}

/// A moment in seconds since 1970 as `Thu Jan  1 00:16:40 1970`, in UTC (asctime(3), without its newline).
pub fn stamp(alloc: Global, moment: u64) -> Result<Octets, NoMemory>
    requires { IsInTime moment }
    ensures { IfOk result (λ text. text ≡ stamp moment) }
{
    let mut text = Vec::new(alloc);
    put_stamp(alloc, &mut text, date_of(moment))?;
    Ok(Octets::from_vec(text))
}

/// Adds a date and time as `1970-01-01 00:16:40`.
#[tactic(auto, unfolding(crate::specs::Stamp::date_time_text))]
pub fn put_date_time(alloc: Global, text: &mut Vec<u8>, date: Civil) -> Result<(), NoMemory>
    ensures { OnOk result (text.new.items ≡ text.old.items ++ date_time_text date) }
{
    put_digits(alloc, text, 4, u64::from(date.year))?;
    text.push(b'-')?;
    put_digits(alloc, text, 2, u64::from(date.month))?;
    text.push(b'-')?;
    put_digits(alloc, text, 2, u64::from(date.day))?;
    text.push(b' ')?;
    put_time(alloc, text, date)
}
