//! What a case gives of a scope: lists of pairs.

use rad_dict::Dict;
use rad_outside::NoMemory;
use rad_pairs::{PairFault, read_pairs};
use rad_value::{ListName, Lists, Pair};
use std::alloc::{AllocError, AllocFailed, Global};

/// Why a case has no scope.
#[derive(Drop)]
pub enum NoScope {
    /// It isn't written as its file says.
    Misspelt,
    NoMemory,
}

impl From<NoMemory> for NoScope {
    fn from(_e: NoMemory) -> NoScope {
        NoScope::NoMemory
    }
}

impl From<AllocError> for NoScope {
    fn from(_e: AllocError) -> NoScope {
        NoScope::NoMemory
    }
}

impl<T: Drop> From<AllocFailed<T>> for NoScope {
    fn from(_e: AllocFailed<T>) -> NoScope {
        NoScope::NoMemory
    }
}

/// The pairs of a text, as radclient(1) reads them.
pub fn pairs_of(alloc: Global, text: &[u8], dict: &Dict) -> Result<Vec<Pair>, NoScope> {
    let items = match read_pairs(alloc, text, dict) {
        Ok(items) => items,
        Err(PairFault::NoMemory) => return Err(NoScope::NoMemory),
        Err(_) => return Err(NoScope::Misspelt),
    };
    let mut pairs = Vec::new(alloc);
    for item in items.into_vec() {
        pairs.push(Pair {
            attr: item.attr,
            value: item.value,
        })?;
    }
    Ok(pairs)
}

/// Adds the pairs of a text to a list, which has room for 1000.
pub fn put(
    alloc: Global,
    lists: &mut Lists,
    list: ListName,
    text: &[u8],
    dict: &Dict,
) -> Result<(), NoScope> {
    for pair in pairs_of(alloc, text, dict)? {
        if lists.len(list) >= 1000 {
            return Err(NoScope::Misspelt);
        }
        lists.push(list, pair)?;
    }
    Ok(())
}
