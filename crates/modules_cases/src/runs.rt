//! A module is called once.

use crate::given::code_name;
use crate::nowhere::Nowhere;
use mod_base::Module;
use rad_dict::Dict;
use rad_outside::{NoMemory, Peer};
use rad_pairs::print_pair;
use rad_value::{ListName, Lists, Scope};
use rad_words::{Code, Section};
use std::alloc::Global;

/// The Request Authenticator of each case: that of the second example of RFC 2865, section 7.2.
const AUTHENTICATOR: [u8; 16] = [
    0x2a, 0xee, 0x86, 0xf0, 0x8d, 0x0d, 0x55, 0x96, 0x9c, 0xa5, 0x97, 0x8e, 0x0d, 0x33, 0x67, 0xa2,
];

/// The source of each case.
const SOURCE: Peer = Peer {
    addr: 0xc0a80110,
    port: 1024,
};

/// What a module is called for: a section, and from which place on the pairs are written then.
#[derive(Clone, Copy)]
pub struct Run<'a> {
    pub section: Section,
    pub from: u32,
    pub dict: &'a Dict,
}

/// What a module answers for a section, and the pairs of the request and of control then.
pub fn run_text<M: Module>(
    alloc: Global,
    module: &M,
    lists: Lists,
    run: Run,
) -> Result<Vec<u8>, NoMemory> {
    if !module.methods().has(run.section) {
        return Ok(Vec::from_slice(alloc, b"no method")?);
    }
    let mut scope = Scope::new(lists, SOURCE, 0, 0, AUTHENTICATOR);
    let code = module.call(alloc, run.section, &mut scope, &mut Nowhere, run.dict)?;
    answer_text(alloc, code, &scope.lists, run)
}

/// A code, and the pairs of the request and of control.
fn answer_text(alloc: Global, code: Code, lists: &Lists, run: Run) -> Result<Vec<u8>, NoMemory> {
    let mut text = Vec::from_slice(alloc, code_name(code))?;
    text.extend_from_slice(b" | request:")?;
    push_pairs(alloc, &mut text, lists, ListName::Request, run)?;
    text.extend_from_slice(b" | control:")?;
    push_pairs(alloc, &mut text, lists, ListName::Control, run)?;
    Ok(text)
}

/// Writes the pairs of a list, and commas between them.
fn push_pairs(
    alloc: Global,
    to: &mut Vec<u8>,
    lists: &Lists,
    list: ListName,
    run: Run,
) -> Result<(), NoMemory> {
    for place in run.from..lists.len(list) {
        if let Some(pair) = lists.get(list, place) {
            if place > run.from {
                to.push(b',')?;
            }
            to.push(b' ')?;
            let text = print_pair(alloc, pair, run.dict)?;
            to.extend_from_slice(text.as_slice())?;
        }
    }
    Ok(())
}
