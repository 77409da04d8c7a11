//! Faults as text: the file and the line between brackets, the fault's name, and the word that it has.

use rad_conf::ConfFault;
use rad_outside::{NoMemory, Place};
use shared_cases::push_number;
use std::alloc::Global;
use unlang_tree::{AddFault, TreeFault};

/// A fault at a place.
fn placed(alloc: Global, place: &Place, name: &[u8], word: &[u8]) -> Result<Vec<u8>, NoMemory> {
    let mut text = Vec::from_slice(alloc, place.file.as_slice())?;
    text.push(b'[')?;
    push_number(alloc, &mut text, u64::from(place.line))?;
    text.extend_from_slice(b"]: ")?;
    text.extend_from_slice(name)?;
    if !word.is_empty() {
        text.push(b' ')?;
        text.extend_from_slice(word)?;
    }
    Ok(text)
}

/// A fault of policies.
pub fn fault_text(alloc: Global, fault: &TreeFault) -> Result<Vec<u8>, NoMemory> {
    let (name, place, word) = parts_of(fault);
    match place {
        Some(place) => placed(alloc, place, name, word),
        None => Err(NoMemory),
    }
}

/// A fault's name, its place, and the word that it has.
fn parts_of(fault: &TreeFault) -> (&'static [u8], Option<&Place>, &[u8]) {
    match fault {
        TreeFault::UnknownModule(place, word) => (b"UnknownModule", Some(place), word.as_slice()),
        TreeFault::NoSuchMethod(place) => (b"NoSuchMethod", Some(place), &[]),
        TreeFault::UnknownKeyword(place) => (b"UnknownKeyword", Some(place), &[]),
        TreeFault::BadAction(place) => (b"BadAction", Some(place), &[]),
        TreeFault::BadUpdate(place) => (b"BadUpdate", Some(place), &[]),
        TreeFault::BadCondition(place) => (b"BadCondition", Some(place), &[]),
        TreeFault::BadPattern(place) => (b"BadPattern", Some(place), &[]),
        TreeFault::BadExpansion(place) => (b"BadExpansion", Some(place), &[]),
        TreeFault::PolicyLoop(place) => (b"PolicyLoop", Some(place), &[]),
        TreeFault::TooDeep(place) => (b"TooDeep", Some(place), &[]),
        TreeFault::TooMany(place) => (b"TooMany", Some(place), &[]),
        TreeFault::NotBuilt(place) => (b"NotBuilt", Some(place), &[]),
        TreeFault::NoMemory => (b"NoMemory", None, &[]),
    }
}

/// A fault of adding an instance.
pub fn add_fault_text(alloc: Global, fault: AddFault) -> Result<Vec<u8>, NoMemory> {
    match fault {
        AddFault::Taken => Ok(Vec::from_slice(alloc, b"Taken")?),
        AddFault::Full(count) => Ok(format!(in alloc; "Full {count}")?.into_bytes()),
        AddFault::NoMemory => Err(NoMemory),
    }
}

/// A fault of the configuration's text, which no case here is about.
pub fn conf_fault_text(alloc: Global, fault: &ConfFault) -> Result<Vec<u8>, NoMemory> {
    if let ConfFault::NoMemory = fault {
        return Err(NoMemory);
    }
    Ok(Vec::from_slice(alloc, b"a fault of the text")?)
}
