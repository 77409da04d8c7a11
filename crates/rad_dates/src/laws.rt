//! The laws of dates, in the words of whoever reads a calendar. They are facts about the definitions, and the functions do
//! nothing.

ghost use Rattle.std.specs.Prelude.{◌≡◌, ℕ, ◌+◌, ◌%◌};
ghost use Rattle.rad_dates.specs.declared.civil.Civil.{Civil};
ghost use Rattle.rad_dates.specs.Calendar.{IsDate, seconds_of};
ghost use Rattle.rad_dates.specs.Dates.{date_of};

/// A moment has one date that the calendar has, and it is the date whose seconds since 1970 are the moment: the date of a
/// moment counts back to it, and a date from 1970 on is the date of its seconds.
pub fn dates_are_of_their_seconds()
    ensures date { (moment : ℕ) → IsDate (date_of moment) }
    ensures back { (moment : ℕ) → seconds_of (date_of moment) ≡ moment }
    ensures only { (date : Civil) → IsDate date → date_of (seconds_of date) ≡ date }
{}

/// The first day of 1970 was a Thursday, and the weekday after each day is the next of seven.
pub fn weekdays_go_round()
    ensures first { (date_of 0).weekday ≡ 4 }
    ensures next { (moment : ℕ) → (date_of (moment + 86400)).weekday ≡ ((date_of moment).weekday + 1) % 7 }
{}
