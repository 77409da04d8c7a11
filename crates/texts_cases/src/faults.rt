//! Faults as text.

use rad_outside::{NoMemory, Place};
use shared_cases::push_number;
use std::alloc::Global;

/// A fault's name, and the file and the line of its place, if it has one.
pub fn fault_text(alloc: Global, name: &[u8], place: Option<&Place>) -> Result<Vec<u8>, NoMemory> {
    let mut text = Vec::from_slice(alloc, name)?;
    if let Some(place) = place {
        text.push(b' ')?;
        text.extend_from_slice(place.file.as_slice())?;
        text.push(b' ')?;
        push_number(alloc, &mut text, u64::from(place.line))?;
    }
    Ok(text)
}
