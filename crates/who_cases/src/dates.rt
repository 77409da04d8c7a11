//! A moment's date, as two texts and its weekday.

use rad_dates::{date_of, put_date_time, stamp};
use rad_outside::{LAST_MOMENT, NoMemory};
use shared_cases::{Case, Subject, decimal, push_number};
use std::alloc::Global;

/// A moment in seconds gives its stamp, its date and time and the number of its weekday, with blanks between them.
#[derive(Drop)]
pub struct Dates;

impl Subject for Dates {
    fn answer(&mut self, alloc: Global, case: &Case) -> Result<Vec<u8>, NoMemory> {
        let moment = decimal(case.cell(0)).min(LAST_MOMENT);
        let date = date_of(moment);
        let mut answer = stamp(alloc, moment)?.into_vec();
        answer.push(b' ')?;
        put_date_time(alloc, &mut answer, date)?;
        answer.push(b' ')?;
        push_number(alloc, &mut answer, u64::from(date.weekday))?;
        Ok(answer)
    }
}
