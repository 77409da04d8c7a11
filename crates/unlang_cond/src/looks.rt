//! Looks for a pattern.

ghost use Rattle.std.specs.Prelude.{◌≡◌, ◌+◌, ◌≤◌, IfOk};
ghost use Rattle.std.specs.Option.{option_map};
ghost use Rattle.regex.specs.Bytes.{regex_pattern, group_count};
ghost use Rattle.unlang_cond.specs.Looks.{cut_out, located, all_located, looked};

use rad_outside::{NoMemory, Octets};
use regex::bytes::{CaptureLocations, Regex};
use std::alloc::Global;

/// The nine captures of a scope.
pub type Captures = [Option<Octets>; 9];

/// What stands between two offsets of a text.
fn cut_out(text: &[u8], start: usize, end: usize) -> Option<&[u8]>
    ensures { option_map (λ x. x.now) result ≡ cut_out text.now (start, end) }
{
    if start <= end && end <= text.len() {
        Some(&text[start..end])
    } else {
        None
    }
}

/// A copy of what a group spans, if it took part.
fn located(
    alloc: Global,
    locations: &CaptureLocations,
    text: &[u8],
    group: usize,
) -> Result<Option<Octets>, NoMemory>
    ensures { IfOk result (λ octets. octets ≡ located locations.now text.now group) }
{
    if group >= locations.len() {
        return Ok(None);
    }
    let Some((start, end)) = locations.get(group) else {
        return Ok(None);
    };
    match cut_out(text, start, end) {
        Some(part) => Ok(Some(Octets::of(alloc, part)?)),
        None => Ok(None),
    }
}

/// What three groups span.
type Three = (Option<Octets>, Option<Octets>, Option<Octets>);

/// Copies of what three groups span, from this one on.
fn three(
    alloc: Global,
    locations: &CaptureLocations,
    text: &[u8],
    first: usize,
) -> Result<Three, NoMemory>
    requires { first ≤ 6 }
    ensures { IfOk result (λ spans. spans
        ≡ (located locations.now text.now first, located locations.now text.now (first + 1), located locations.now text.now (first + 2))) }
{
    Ok((
        located(alloc, locations, text, first)?,
        located(alloc, locations, text, first + 1)?,
        located(alloc, locations, text, first + 2)?,
    ))
}

/// What the first nine groups span.
fn captured(alloc: Global, locations: &CaptureLocations, text: &[u8]) -> Result<Captures, NoMemory>
    ensures { IfOk result (λ captures. captures ≡ all_located locations.now text.now) }
{
    let (a, b, c) = three(alloc, locations, text, 0)?;
    let (d, e, f) = three(alloc, locations, text, 3)?;
    let (g, h, i) = three(alloc, locations, text, 6)?;
    Ok([a, b, c, d, e, f, g, h, i])
}

/// The captures of the leftmost match in a text, if there is one.
pub fn look(alloc: Global, regex: &Regex, text: &[u8]) -> Result<Option<Captures>, NoMemory>
    ensures { IfOk result (λ captures. captures ≡ looked (group_count regex.now) (regex_pattern regex.now) text.now) }
{
    let mut matcher = regex.matcher(alloc)?;
    let mut locations = regex.capture_locations(alloc)?;
    match matcher.captures_read(&mut locations, text) {
        Some(_) => Ok(Some(captured(alloc, &locations, text)?)),
        None => Ok(None),
    }
}
