//! Texts as they are spelled: with escapes, and with variables in place of which their values stand.

ghost use Rattle.std.specs.Prelude.{◌≡◌, ◌+◌, ◌≤◌, ◌++◌, [], ◌∷◌, length, OnOk, IfSome};
ghost use Rattle.rad_text.specs.Read.{Gives};
ghost use Rattle.rad_conf.specs.Words.{behind, variable_part, escape_of, has_escapes, has_variables, variable_in, passing, reads, spelled_by, spelled};

use crate::fault::Wrong;
use crate::growth::Growth;
use crate::sign::{octet_at, variable_at};
use rad_outside::{NoMemory, Octets};
use rad_text::ReadError;
use std::alloc::Global;

/// How a text is spelled.
#[derive(Clone, Copy, Debug, PartialEq, Eq)]
pub enum Spelling {
    /// Without quotes.
    Plain,
    /// In single quotes.
    Single,
    /// In double quotes.
    Double,
    /// In double quotes whose escapes stay as written.
    Kept,
}

/// How the next octet of a text is taken.
#[derive(Clone, Copy, Debug, PartialEq, Eq)]
pub enum Ahead {
    Reads,
    /// Behind a backslash.
    Escaped,
    /// Passed over, with others up to so many in all.
    Passes(usize),
}

impl Spelling {
    /// Whether a backslash takes the octet behind it along.
    fn has_escapes(self) -> bool
        ensures { result ≡ has_escapes self }
    {
        match self {
            Spelling::Plain => false,
            Spelling::Single | Spelling::Double | Spelling::Kept => true,
        }
    }

    /// Whether variables are replaced.
    fn has_variables(self) -> bool
        ensures { result ≡ has_variables self }
    {
        match self {
            Spelling::Single => false,
            Spelling::Plain | Spelling::Double | Spelling::Kept => true,
        }
    }

    /// The variable at the front, where variables are replaced, by the length of its name.
    fn variable_in(self, text: &[u8]) -> Option<usize>
        ensures exact { result ≡ variable_in self text.now }
        ensures within { IfSome result (λ len. len + 3 ≤ length text.now) }
    {
        if self.has_variables() {
            variable_at(text)
        } else {
            None
        }
    }
}

/// A backslash and an octet, as they stand.
fn push_both(out: &mut Vec<u8>, octet: u8) -> Result<(), NoMemory>
    ensures { OnOk result (out.new.items ≡ out.old.items ++ 92 ∷ octet ∷ []) }
{
    out.push(b'\\')?;
    out.push(octet)?;
    Ok(())
}

/// Adds what a backslash and an octet stand for.
pub fn push_escape(how: Spelling, out: &mut Vec<u8>, octet: u8) -> Result<(), NoMemory>
    ensures { OnOk result (out.new.items ≡ out.old.items ++ escape_of how octet) }
{
    match (how, octet) {
        (Spelling::Single, b'\'' | b'\\') | (Spelling::Double, b'"' | b'\\') => out.push(octet)?,
        (Spelling::Double, b'n') => out.push(b'\n')?,
        (Spelling::Double, b'r') => out.push(b'\r')?,
        (Spelling::Double, b't') => out.push(b'\t')?,
        _ => push_both(out, octet)?,
    }
    Ok(())
}

/// Of so many octets that are passed over one is behind.
fn passing(len: usize) -> Ahead
    ensures { result ≡ passing len }
{
    if len > 1 {
        Ahead::Passes(len - 1)
    } else {
        Ahead::Reads
    }
}

/// Adds the value of the variable at the front, by the length of its name, and answers how many
/// octets behind its first are passed over with it.
pub fn push_variable(
    alloc: Global,
    growth: &Growth,
    out: &mut Vec<u8>,
    len: usize,
    text: &[u8],
) -> Result<usize, ReadError<Wrong>>
    requires { len + 3 ≤ length text.now }
    ensures { Gives (λ passed. (out.new.items, passed)) result (behind out.old.items (variable_part growth.now len text.now)) }
{
    let (_, behind) = text.split_at(2);
    let (name, _) = behind.split_at(len);
    match growth.value(alloc, name)? {
        None => Err(ReadError::Wrong(Wrong::NoVariable)),
        Some(value) => {
            out.extend_from_slice(value)?;
            Ok(len + 2)
        }
    }
}

/// Adds what an octet at the front adds where nothing stands before it that takes it along.
fn reads(
    alloc: Global,
    growth: &Growth,
    how: Spelling,
    out: &mut Vec<u8>,
    text: &[u8],
) -> Result<Ahead, ReadError<Wrong>>
    ensures { Gives (λ ahead. (out.new.items, ahead)) result (reads growth.now how out.old.items text.now) }
{
    let octet = octet_at(text, 0);
    if how.has_escapes() && octet == b'\\' {
        return Ok(Ahead::Escaped);
    }
    match how.variable_in(text) {
        Some(len) => Ok(Ahead::Passes(push_variable(alloc, growth, out, len, text)?)),
        None => {
            out.push(octet)?;
            Ok(Ahead::Reads)
        }
    }
}

/// Adds what an octet adds, and answers how the next one is taken.
fn spelled_by(
    alloc: Global,
    growth: &Growth,
    how: Spelling,
    out: &mut Vec<u8>,
    ahead: Ahead,
    text: &[u8],
) -> Result<Ahead, ReadError<Wrong>>
    ensures { Gives (λ ahead. (out.new.items, ahead)) result (spelled_by growth.now how out.old.items ahead text.now) }
{
    match ahead {
        Ahead::Reads => reads(alloc, growth, how, out, text),
        Ahead::Escaped => {
            push_escape(how, out, octet_at(text, 0))?;
            Ok(Ahead::Reads)
        }
        Ahead::Passes(len) => Ok(passing(len)),
    }
}

/// The text that octets spell.
#[tactic(auto, unfolding(crate::specs::Words::spelled_from))]
pub fn spelled(
    alloc: Global,
    growth: &Growth,
    how: Spelling,
    raw: &[u8],
) -> Result<Octets, ReadError<Wrong>>
    ensures { Gives (λ text. text) result (spelled growth.now how raw.now) }
{
    let mut out = Vec::new(alloc);
    let mut ahead = Ahead::Reads;
    let mut rest = raw;
    while let Some((_, after)) = rest.split_first() {
        ahead = spelled_by(alloc, growth, how, &mut out, ahead, rest)?;
        rest = after;
    }
    Ok(Octets::from_vec(out))
}
