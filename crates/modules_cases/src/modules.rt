//! Modules by their settings.

use crate::given::{put, section_of};
use crate::runs::{Run, run_text};
use mod_auth::{Chap, Pap};
use mod_base::Module;
use mod_realm::{RealmFault, RealmFormat, RealmModule, Realms};
use rad_dict::Dict;
use rad_outside::{NoMemory, Octets};
use rad_value::{ListName, Lists};
use shared_cases::{Case, Subject, decimal, push_number, words};
use std::alloc::Global;

/// A module's settings, a section, how many pairs stand in each list before those that are given, and the pairs of the
/// request and of control give what the module answers, and the pairs behind those.
#[derive(Drop)]
pub struct ModuleCases;

const MISSPELT: &[u8] = b"the case is misspelt";

impl Subject for ModuleCases {
    fn answer(&mut self, alloc: Global, case: &Case) -> Result<Vec<u8>, NoMemory> {
        let dict = Dict::base(alloc)?;
        case_text(alloc, case, &dict)
    }
}

/// What the module of a case answers.
fn case_text(alloc: Global, case: &Case, dict: &Dict) -> Result<Vec<u8>, NoMemory> {
    let given = words(alloc, case.cell(0))?;
    let run = Run {
        section: section_of(case.cell(1)),
        from: count_of(case),
        dict,
    };
    match given.as_slice() {
        [b"pap", name] => pap_text(alloc, name, case, run),
        [b"chap", name] => chap_text(alloc, name, case, run),
        [b"realm", format, [delimiter], names @ ..] => {
            let Some(realms) = realms_of(alloc, names)? else {
                return Ok(Vec::from_slice(alloc, b"a realm is taken")?);
            };
            let module = RealmModule::new(realms, format_of(format), *delimiter);
            module_text(alloc, &module, case, run)
        }
        _ => Ok(Vec::from_slice(alloc, MISSPELT)?),
    }
}

fn pap_text(alloc: Global, name: &[u8], case: &Case, run: Run) -> Result<Vec<u8>, NoMemory> {
    let module = Pap::new(Octets::of(alloc, name)?);
    module_text(alloc, &module, case, run)
}

fn chap_text(alloc: Global, name: &[u8], case: &Case, run: Run) -> Result<Vec<u8>, NoMemory> {
    let module = Chap::new(Octets::of(alloc, name)?);
    module_text(alloc, &module, case, run)
}

/// What a module answers on the lists of a case.
fn module_text<M: Module>(
    alloc: Global,
    module: &M,
    case: &Case,
    run: Run,
) -> Result<Vec<u8>, NoMemory> {
    let mut lists = Lists::new(alloc);
    if !fill(alloc, &mut lists, case, run.dict)? {
        return Ok(Vec::from_slice(alloc, MISSPELT)?);
    }
    run_text(alloc, module, lists, run)
}

/// How many pairs stand in each list before those that are given.
fn count_of(case: &Case) -> u32 {
    u32::try_from(decimal(case.cell(2))).unwrap_or(0)
}

/// Puts the pairs of a case into its lists, and answers whether they could be read.
fn fill(alloc: Global, lists: &mut Lists, case: &Case, dict: &Dict) -> Result<bool, NoMemory> {
    for _ in 0..count_of(case) {
        let _is_put = put(alloc, lists, ListName::Request, b"Class = 0x", dict)?;
        let _is_put = put(alloc, lists, ListName::Control, b"Class = 0x", dict)?;
    }
    let is_request = put(alloc, lists, ListName::Request, case.cell(3), dict)?;
    let is_control = put(alloc, lists, ListName::Control, case.cell(4), dict)?;
    Ok(is_request && is_control)
}

fn format_of(word: &[u8]) -> RealmFormat {
    match word {
        b"prefix" => RealmFormat::Prefix,
        _ => RealmFormat::Suffix,
    }
}

/// The realms of these names, `!` before one that keeps names whole, and `*COUNT` for so many that are named by their numbers;
/// none where a name is taken.
fn realms_of(alloc: Global, names: &[&[u8]]) -> Result<Option<Realms>, NoMemory> {
    let mut realms = Realms::new(alloc);
    for name in names {
        let is_added = match name {
            [b'*', count @ ..] => add_numbered(alloc, &mut realms, decimal(count))?,
            [b'!', name @ ..] => add(&mut realms, name, true)?,
            name => add(&mut realms, name, false)?,
        };
        if !is_added {
            return Ok(None);
        }
    }
    Ok(Some(realms))
}

/// Adds realms that are named by the numbers below a count, and answers whether their names were free.
fn add_numbered(alloc: Global, realms: &mut Realms, count: u64) -> Result<bool, NoMemory> {
    for number in 0..count {
        let mut name = Vec::new(alloc);
        push_number(alloc, &mut name, number)?;
        if !add(realms, name.as_slice(), false)? {
            return Ok(false);
        }
    }
    Ok(true)
}

/// Adds a realm, and answers whether its name was free.
fn add(realms: &mut Realms, name: &[u8], nostrip: bool) -> Result<bool, NoMemory> {
    match realms.add(name, nostrip) {
        Ok(()) => Ok(true),
        Err(RealmFault::Taken) => Ok(false),
        Err(RealmFault::NoMemory) => Err(NoMemory),
    }
}
