//! What a case gives: sections, codes and pairs.

use rad_dict::Dict;
use rad_outside::NoMemory;
use rad_pairs::{PairFault, read_pairs};
use rad_value::{ListName, Lists, Pair};
use rad_words::{Code, Section};
use std::alloc::Global;

/// The section of a name, post-auth where the name is no other's.
pub fn section_of(name: &[u8]) -> Section {
    match name {
        b"authorize" => Section::Authorize,
        b"authenticate" => Section::Authenticate,
        b"session" => Section::Session,
        b"preacct" => Section::Preacct,
        b"accounting" => Section::Accounting,
        _ => Section::PostAuth,
    }
}

/// The name of a code, as unlang(5) has it.
pub fn code_name(code: Code) -> &'static [u8] {
    match code {
        Code::Reject => b"reject",
        Code::Fail => b"fail",
        Code::Ok => b"ok",
        Code::Handled => b"handled",
        Code::Invalid => b"invalid",
        Code::Userlock => b"userlock",
        Code::Notfound => b"notfound",
        Code::Noop => b"noop",
        Code::Updated => b"updated",
    }
}

/// Adds the pairs of a text to a list, and answers whether they could be read.
pub fn put(
    alloc: Global,
    lists: &mut Lists,
    list: ListName,
    text: &[u8],
    dict: &Dict,
) -> Result<bool, NoMemory> {
    match read_pairs(alloc, text, dict) {
        Ok(items) => {
            for item in items.into_vec() {
                if lists.len(list) < 1000 {
                    lists.push(
                        list,
                        Pair {
                            attr: item.attr,
                            value: item.value,
                        },
                    )?;
                }
            }
            Ok(true)
        }
        Err(PairFault::NoMemory) => Err(NoMemory),
        Err(_) => Ok(false),
    }
}
