//! Cases of one line each: cells that a tab parts, of which the last is what the program has to give.

use crate::case::{Case, Field};
use crate::spelling::unescaped;
use rad_outside::NoMemory;
use std::alloc::Global;

/// The cases of a file of rows. A line that is empty or begins with `#` is none. A line without a tab is a case without
/// an expected answer, which counts as wrong.
pub fn rows(alloc: Global, octets: &[u8]) -> Result<Vec<Case>, NoMemory> {
    let mut cases = Vec::new(alloc);
    let mut line = 0u64;
    for text in octets.split(|octet| *octet == b'\n') {
        line = line.saturating_add(1);
        if !text.is_empty() && !text.starts_with(b"#") {
            cases.push(row(alloc, line, text)?)?;
        }
    }
    Ok(cases)
}

/// The case of a line.
fn row(alloc: Global, line: u64, text: &[u8]) -> Result<Case, NoMemory> {
    let mut fields = Vec::new(alloc);
    for cell in text.split(|octet| *octet == b'\t') {
        fields.push(Field {
            name: Vec::new(alloc),
            text: unescaped(alloc, cell)?,
        })?;
    }
    if fields.len() > 1
        && let Some(last) = fields.last_mut()
    {
        last.name = Vec::from_slice(alloc, b"gives")?;
    }
    Ok(Case { line, fields })
}
