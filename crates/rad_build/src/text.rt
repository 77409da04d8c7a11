//! The printed texts of faults.

ghost use Rattle.std.specs.Prelude.{◌≡◌, ◌++◌, IfOk};
ghost use Rattle.rad_build.specs.FaultText.{placed_text, conf_fault_text, tree_fault_text, dict_fault_text, users_fault_text, fault_text, read_fault_text, memory_text};

use crate::fault::BuildFault;
use mod_users::UsersFault;
use rad_conf::ConfFault;
use rad_dict::DictFault;
use rad_outside::{NoMemory, Octets, Place};
use std::alloc::Global;
use unlang_tree::TreeFault;

/// A reason at a line of a file.
fn lined_text(alloc: Global, file: &[u8], line: u32, reason: &[u8]) -> Result<Octets, NoMemory>
    ensures { IfOk result (λ text. text ≡ placed_text (record { file = file.now; line = line }) reason.now) }
{
    let line = line.to_string(alloc)?;
    let mut text = Vec::from_slice(alloc, file)?;
    text.extend_from_slice(b"[")?;
    text.extend_from_slice(line.as_bytes())?;
    text.extend_from_slice(b"]: ")?;
    text.extend_from_slice(reason)?;
    Ok(Octets::from_vec(text))
}

/// A reason at its place.
fn placed_text(alloc: Global, place: &Place, reason: &[u8]) -> Result<Octets, NoMemory>
    ensures { IfOk result (λ text. text ≡ placed_text place.now reason.now) }
{
    lined_text(alloc, place.file.as_slice(), place.line, reason)
}

fn read_fault_text(alloc: Global) -> Result<Octets, NoMemory>
    ensures { IfOk result (λ text. text ≡ read_fault_text) }
{
    Octets::of(alloc, b"read fault")
}

fn memory_text(alloc: Global) -> Result<Octets, NoMemory>
    ensures { IfOk result (λ text. text ≡ memory_text) }
{
    Octets::of(alloc, b"memory")
}

fn conf_fault_text(alloc: Global, fault: &ConfFault) -> Result<Octets, NoMemory>
    ensures { IfOk result (λ text. text ≡ conf_fault_text fault.now) }
{
    match fault {
        ConfFault::Unclosed(place) => placed_text(alloc, place, b"Unclosed"),
        ConfFault::Stray(place) => placed_text(alloc, place, b"Stray"),
        ConfFault::BadQuote(place) => placed_text(alloc, place, b"BadQuote"),
        ConfFault::NoVariable(place) => placed_text(alloc, place, b"NoVariable"),
        ConfFault::TooDeep(place) => placed_text(alloc, place, b"TooDeep"),
        ConfFault::Missing(place) => placed_text(alloc, place, b"Missing"),
        ConfFault::TooLong(place) => placed_text(alloc, place, b"TooLong"),
        ConfFault::ReadFault => read_fault_text(alloc),
        ConfFault::NoMemory => memory_text(alloc),
    }
}

/// A reason and its word at their place.
fn worded_text(alloc: Global, place: &Place, reason: &[u8], word: &[u8]) -> Result<Octets, NoMemory>
    ensures { IfOk result (λ text. text ≡ placed_text place.now (reason.now ++ word.now)) }
{
    let mut whole = Vec::from_slice(alloc, reason)?;
    whole.extend_from_slice(word)?;
    placed_text(alloc, place, whole.as_slice())
}

fn tree_fault_text(alloc: Global, fault: &TreeFault) -> Result<Octets, NoMemory>
    ensures { IfOk result (λ text. text ≡ tree_fault_text fault.now) }
{
    match fault {
        TreeFault::UnknownModule(place, word) => {
            worded_text(alloc, place, b"UnknownModule ", word.as_slice())
        }
        TreeFault::NoSuchMethod(place) => placed_text(alloc, place, b"NoSuchMethod"),
        TreeFault::UnknownKeyword(place) => placed_text(alloc, place, b"UnknownKeyword"),
        TreeFault::BadAction(place) => placed_text(alloc, place, b"BadAction"),
        TreeFault::BadUpdate(place) => placed_text(alloc, place, b"BadUpdate"),
        TreeFault::BadCondition(place) => placed_text(alloc, place, b"BadCondition"),
        TreeFault::BadPattern(place) => placed_text(alloc, place, b"BadPattern"),
        TreeFault::BadExpansion(place) => placed_text(alloc, place, b"BadExpansion"),
        TreeFault::PolicyLoop(place) => placed_text(alloc, place, b"PolicyLoop"),
        TreeFault::TooDeep(place) => placed_text(alloc, place, b"TooDeep"),
        TreeFault::TooMany(place) => placed_text(alloc, place, b"TooMany"),
        TreeFault::NotBuilt(place) => placed_text(alloc, place, b"NotBuilt"),
        TreeFault::NoMemory => memory_text(alloc),
    }
}

fn dict_fault_text(alloc: Global, fault: &DictFault) -> Result<Octets, NoMemory>
    ensures { IfOk result (λ text. text ≡ dict_fault_text fault.now) }
{
    match fault {
        DictFault::BadLine(place) => placed_text(alloc, place, b"BadLine"),
        DictFault::UnknownVendor(place) => placed_text(alloc, place, b"UnknownVendor"),
        DictFault::Taken(place) => placed_text(alloc, place, b"Taken"),
        DictFault::TooDeep(place) => placed_text(alloc, place, b"TooDeep"),
        DictFault::Missing(place) => placed_text(alloc, place, b"Missing"),
        DictFault::TooLong(place) => placed_text(alloc, place, b"TooLong"),
        DictFault::ReadFault => read_fault_text(alloc),
        DictFault::NoMemory => memory_text(alloc),
    }
}

fn users_fault_text(alloc: Global, file: &[u8], fault: &UsersFault) -> Result<Octets, NoMemory>
    ensures { IfOk result (λ text. text ≡ users_fault_text file.now fault.now) }
{
    match fault {
        UsersFault::UnknownAttr(spot) => lined_text(alloc, file, spot.line, b"UnknownAttr"),
        UsersFault::BadOperator(spot) => lined_text(alloc, file, spot.line, b"BadOperator"),
        UsersFault::BadValue(spot) => lined_text(alloc, file, spot.line, b"BadValue"),
        UsersFault::BadPattern(spot) => lined_text(alloc, file, spot.line, b"BadPattern"),
        UsersFault::BadEntry(spot) => lined_text(alloc, file, spot.line, b"BadEntry"),
        UsersFault::NoMemory => memory_text(alloc),
    }
}

/// The text of a fault: `FILE[LINE]: REASON` where it has a place.
pub fn fault_text(alloc: Global, fault: &BuildFault) -> Result<Octets, NoMemory>
    ensures { IfOk result (λ text. text ≡ fault_text fault.now) }
{
    match fault {
        BuildFault::Conf(wrong) => conf_fault_text(alloc, wrong),
        BuildFault::Dict(wrong) => dict_fault_text(alloc, wrong),
        BuildFault::Users(file, wrong) => users_fault_text(alloc, file.as_slice(), wrong),
        BuildFault::BadSetting(place, name) => {
            worded_text(alloc, place, b"BadSetting ", name.as_slice())
        }
        BuildFault::UnknownModule(place, kind) => {
            worded_text(alloc, place, b"UnknownModule ", kind.as_slice())
        }
        BuildFault::Tree(wrong) => tree_fault_text(alloc, wrong),
        BuildFault::ReadFault => read_fault_text(alloc),
        BuildFault::NoMemory => memory_text(alloc),
    }
}
