//! What one line of a dictionary file does.

ghost use Rattle.std.specs.Prelude.{◌≡◌, ◌≢◌, IfOk};
ghost use Rattle.rad_dict.specs.Answers.{IsAnswer};
ghost use Rattle.rad_text.specs.Paths.{place_at, beside};
ghost use Rattle.rad_dict.specs.Steps.{fault_of, step_of};

use crate::fault::{DictFault, Wrong};
use crate::line::{Line, line_at};
use crate::reading::Reading;
use rad_outside::{NoMemory, Octets, Place};
use rad_text::{ReadError, beside, place_at};
use std::alloc::Global;

/// What a line does: reading goes on with what is known then, or first with a file, by the place of its
/// line and its path.
#[derive(Drop)]
pub enum Step {
    Goes(Reading),
    Includes(Place, Octets, Reading),
}

/// The fault of what is wrong at a place.
fn fault_of(place: Place, wrong: Wrong) -> DictFault
    ensures exact { result ≡ fault_of place wrong }
    ensures works { result ≢ DictFault.ReadFault }
{
    match wrong {
        Wrong::BadLine => DictFault::BadLine(place),
        Wrong::UnknownVendor => DictFault::UnknownVendor(place),
        Wrong::Taken => DictFault::Taken(place),
    }
}

/// The answer that something is wrong at a line of a file.
pub fn wrong_at<T>(alloc: Global, file: &[u8], line: u32, wrong: Wrong) -> Result<T, DictFault>
    ensures exact { IsAnswer (Err (fault_of (place_at file.now line) wrong)) result }
    ensures works { result ≢ Err DictFault.ReadFault }
{
    Err(fault_of(place_at(alloc, file, line)?, wrong))
}

/// The place of the line that includes a path, and that path beside the line's file.
fn include_at(
    alloc: Global,
    file: &[u8],
    line: u32,
    path: &[u8],
) -> Result<(Place, Octets), NoMemory>
    ensures place { IfOk result (λ found. found.0 ≡ place_at file.now line) }
    ensures path { IfOk result (λ found. found.1 ≡ beside file.now path.now) }
{
    Ok((place_at(alloc, file, line)?, beside(alloc, file, path)?))
}

/// What a line of a file does.
#[tactic(auto, unfolding(crate::specs::Steps::step_of))]
pub fn step_of(
    alloc: Global,
    file: &[u8],
    line: u32,
    reading: Reading,
    text: &[u8],
) -> Result<Step, DictFault>
    ensures exact { IsAnswer (step_of file.now line reading text.now) result }
    ensures works { result ≢ Err DictFault.ReadFault }
{
    match line_at(text) {
        None => wrong_at(alloc, file, line, Wrong::BadLine),
        Some(Line::Include(path)) => {
            let (place, path) = include_at(alloc, file, line, path)?;
            Ok(Step::Includes(place, path, reading))
        }
        Some(Line::States(statement)) => match reading.after(alloc, statement) {
            Ok(reading) => Ok(Step::Goes(reading)),
            Err(ReadError::NoMemory) => Err(DictFault::NoMemory),
            Err(ReadError::Wrong(wrong)) => wrong_at(alloc, file, line, wrong),
        },
    }
}
