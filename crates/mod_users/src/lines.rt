//! The lines of a users file, by their first octets.

ghost use Rattle.std.specs.Prelude.{◌≡◌, ◌+◌, ◌<◌, length, take, drop, not, position, find};
ghost use Rattle.std.specs.List.{before_first, after_first};
ghost use Rattle.rad_text.specs.Blanks.{is_blank};
ghost use Rattle.rad_text.specs.Find.{Finds};
ghost use Rattle.mod_users.specs.Lines.{is_passed, is_indented, is_quoted, head_of};

use rad_outside::Octets;
use rad_pairs::{NoValue, word_at};
use rad_text::{ReadError, is_blank};
use std::alloc::Global;

/// The place of the first blank.
fn blank(line: &[u8]) -> Option<usize>
    ensures { result ≡ position is_blank line.now }
{
    line.iter().position(|octet| is_blank(*octet))
}

/// The first octet that isn't a blank.
fn first_sign(line: &[u8]) -> Option<u8>
    ensures { result ≡ find (λ c. not (is_blank c)) line.now }
{
    line.iter().copied().find(|octet| !is_blank(*octet))
}

/// What stands before a place, and what stands behind it.
fn around(text: &[u8], place: usize) -> (&[u8], &[u8])
    requires { place < length text.now }
    ensures front { result.0.now ≡ take place text.now }
    ensures back { result.1.now ≡ drop (place + 1) text.now }
{
    let (front, _) = text.split_at(place);
    let (_, back) = text.split_at(place + 1);
    (front, back)
}

/// The bare name at the front of a line, up to the first blank, and what stands behind that blank.
fn name_and_rest(line: &[u8]) -> (&[u8], &[u8])
    ensures name { result.0.now ≡ before_first is_blank line.now }
    ensures rest { result.1.now ≡ after_first is_blank line.now }
{
    match blank(line) {
        Some(place) => around(line, place),
        None => (line, &[]),
    }
}

/// Whether a line says nothing.
pub fn is_passed(line: &[u8]) -> bool
    ensures { result ≡ is_passed line.now }
{
    match first_sign(line) {
        Some(octet) => octet == b'#',
        None => true,
    }
}

pub fn is_indented(line: &[u8]) -> bool
    ensures { result ≡ is_indented line.now }
{
    match line {
        [] => false,
        [octet, ..] => is_blank(*octet),
    }
}

fn is_quoted(line: &[u8]) -> bool
    ensures { result ≡ is_quoted line.now }
{
    matches!(line, [b'"' | b'\'', ..])
}

/// The name at the front of an entry's first line, whether a blank stands behind it, and what follows. `NoValue` where the
/// quote of the name isn't closed.
#[tactic(auto, unfolding(crate::specs::Lines::head_of))]
pub fn head_of(alloc: Global, line: &[u8]) -> Result<(Octets, bool, &[u8]), ReadError<NoValue>>
    ensures { Finds (λ x. (x.0, x.1, x.2.now)) result (head_of line.now) }
{
    if is_quoted(line) {
        let (name, rest) = word_at(alloc, line)?;
        return Ok((name, false, rest));
    }
    let (name, rest) = name_and_rest(line);
    Ok((Octets::of(alloc, name)?, true, rest))
}
