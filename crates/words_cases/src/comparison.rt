//! Values are compared.

use crate::notation::{NoAnswer, answered, value_of};
use rad_outside::NoMemory;
use rad_value::{Cmp, compare};
use shared_cases::{Case, Subject};
use std::alloc::Global;

/// Two values give what `==`, `!=`, `<`, `<=`, `>` and `>=` answer of them. The left one is a copy, so that copying is
/// tried too.
#[derive(Drop)]
pub struct Comparisons;

impl Subject for Comparisons {
    fn answer(&mut self, alloc: Global, case: &Case) -> Result<Vec<u8>, NoMemory> {
        answered(alloc, compared(alloc, case.cell(0), case.cell(1)))
    }
}

fn compared(alloc: Global, left: &[u8], right: &[u8]) -> Result<Vec<u8>, NoAnswer> {
    let left = value_of(alloc, left)?.try_clone(alloc)?;
    let right = value_of(alloc, right)?;
    let mut signs = Vec::new(alloc);
    for cmp in [Cmp::Eq, Cmp::Ne, Cmp::Lt, Cmp::Le, Cmp::Gt, Cmp::Ge] {
        signs.push(match compare(&left, cmp, &right) {
            Some(true) => b'y',
            Some(false) => b'n',
            None => b'-',
        })?;
    }
    Ok(signs)
}
