//! Cases of several lines each, in a form that has room for whole files.
//!
//! A line `case TITLE` begins a case. A line `NAME VALUE` is a field of it; the lines behind it add to that field's
//! octets: `| TEXT` the text and a newline, `+ TEXT` the text alone, and `$ NAME` the octets of a shared text. A shared
//! text is written above its first use, as `let NAME` and lines that add to it. Within texts `%HH` is one octet, by two
//! hexadecimal digits. A line that is empty or begins with `#` says nothing.

use crate::case::{Case, Field};
use crate::spelling::{after_word, unescaped};
use rad_outside::NoMemory;
use std::alloc::Global;

/// What has been read of a file.
#[derive(Drop)]
struct Reading {
    alloc: Global,
    shared: Vec<Field>,
    cases: Vec<Case>,
    /// Whether lines that add belong to the last shared text, and not to the last case's last field.
    is_sharing: bool,
}

/// The cases of a file of blocks. A line that can't be read is a case without an expected answer, which counts as wrong.
pub fn blocks(alloc: Global, octets: &[u8]) -> Result<Vec<Case>, NoMemory> {
    let mut reading = Reading {
        alloc,
        shared: Vec::new(alloc),
        cases: Vec::new(alloc),
        is_sharing: false,
    };
    let mut line = 0u64;
    for text in octets.split(|octet| *octet == b'\n') {
        line = line.saturating_add(1);
        reading.take(line, text)?;
    }
    Ok(reading.cases)
}

/// A field without octets.
fn field(alloc: Global, name: &[u8]) -> Result<Field, NoMemory> {
    Ok(Field {
        name: Vec::from_slice(alloc, name)?,
        text: Vec::new(alloc),
    })
}

impl Reading {
    /// Takes the next line.
    fn take(&mut self, line: u64, text: &[u8]) -> Result<(), NoMemory> {
        if text.is_empty() || text.starts_with(b"#") {
            return Ok(());
        }
        if after_word(text, b"case").is_some() {
            self.is_sharing = false;
            return self.begin(line);
        }
        if let Some(name) = after_word(text, b"let") {
            self.is_sharing = true;
            self.shared.push(field(self.alloc, name)?)?;
            return Ok(());
        }
        let is_read = match text {
            [b'|', ..] => self.add(after_sign(text), b"\n")?,
            [b'+', ..] => self.add(after_sign(text), b"")?,
            [b'$', ..] => self.add_shared(after_sign(text))?,
            _ => self.add_field(text)?,
        };
        if is_read { Ok(()) } else { self.begin(line) }
    }

    /// Begins a case.
    fn begin(&mut self, line: u64) -> Result<(), NoMemory> {
        self.cases.push(Case {
            line,
            fields: Vec::new(self.alloc),
        })?;
        Ok(())
    }

    /// Adds a field to the last case, if there is one.
    fn add_field(&mut self, text: &[u8]) -> Result<bool, NoMemory> {
        let alloc = self.alloc;
        if self.is_sharing {
            return Ok(false);
        }
        let Some(case) = self.cases.last_mut() else {
            return Ok(false);
        };
        let mut parts = text.splitn(2, |octet| *octet == b' ');
        let name = parts.next().unwrap_or(&[]);
        let value = parts.next().unwrap_or(&[]);
        case.fields.push(Field {
            name: Vec::from_slice(alloc, name)?,
            text: unescaped(alloc, value)?,
        })?;
        Ok(true)
    }

    /// Adds a text and what ends it to the text that is open, if there is one.
    fn add(&mut self, text: &[u8], end: &[u8]) -> Result<bool, NoMemory> {
        let octets = unescaped(self.alloc, text)?;
        if self.push(octets.as_slice())? {
            return self.push(end);
        }
        Ok(false)
    }

    /// Adds the shared text of a name to the text that is open, if there are both.
    fn add_shared(&mut self, name: &[u8]) -> Result<bool, NoMemory> {
        let Some(octets) = shared_text(self.alloc, self.shared.as_slice(), name)? else {
            return Ok(false);
        };
        self.push(octets.as_slice())
    }

    /// Adds octets to the text that is open, if there is one.
    fn push(&mut self, octets: &[u8]) -> Result<bool, NoMemory> {
        if self.is_sharing {
            return add_to_last(&mut self.shared, octets);
        }
        match self.cases.last_mut() {
            Some(case) => add_to_last(&mut case.fields, octets),
            None => Ok(false),
        }
    }
}

/// Adds octets to the last field, if there is one.
fn add_to_last(fields: &mut Vec<Field>, octets: &[u8]) -> Result<bool, NoMemory> {
    match fields.last_mut() {
        Some(field) => {
            field.text.extend_from_slice(octets)?;
            Ok(true)
        }
        None => Ok(false),
    }
}

/// A copy of the shared text of a name.
fn shared_text(alloc: Global, shared: &[Field], name: &[u8]) -> Result<Option<Vec<u8>>, NoMemory> {
    for field in shared {
        if field.name.as_slice() == name {
            return Ok(Some(Vec::from_slice(alloc, field.text.as_slice())?));
        }
    }
    Ok(None)
}

/// What follows a line's sign and one blank.
fn after_sign(text: &[u8]) -> &[u8] {
    match text {
        [_, b' ', rest @ ..] => rest,
        [_, rest @ ..] => rest,
        [] => &[],
    }
}
