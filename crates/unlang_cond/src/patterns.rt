//! Patterns that are compiled, once, when a condition is read.

ghost use Rattle.std.specs.Prelude.{◌≡◌, IfOk};
ghost use Rattle.unlang_cond.specs.Patterns.{has_expansion, IsBuilt, IsAnswerTo};
ghost use Rattle.unlang_cond.specs.Looks.{looked_for};

use crate::atom::Pattern;
use crate::looks::{Captures, look};
use rad_outside::NoMemory;
use regex::bytes::Regex;
use regex::{Error, RegexBuilder};
use std::alloc::Global;
use std::marker::Model;

/// A pattern that is compiled. What it finds is determined by its text and by whether letters match in either case, and these
/// two are all that contracts see of it.
#[derive(Drop)]
pub struct CompiledPattern {
    regex: Regex,
}

impl Model for CompiledPattern {
    ghost use Rattle.std.specs.Prelude.{List, ℕ, Bool};
    ghost use Rattle.regex.specs.Bytes.{regex_source};
    ghost use Rattle.unlang_cond.specs.Patterns.{is_insensitive, IsOfText};

    ghost Value = { List ℕ × Bool };

    ghost view = { λ c. (regex_source c.regex, is_insensitive c.regex) };

    ghost invariant = { λ c. IsOfText c.regex };
}

impl CompiledPattern {
    /// The captures of the pattern's leftmost match in a text, if there is one.
    pub fn look(&self, alloc: Global, text: &[u8]) -> Result<Option<Captures>, NoMemory>
        ensures { IfOk result (λ captures. captures ≡ looked_for self.now.0 self.now.1 text.now) }
    {
        look(alloc, &self.regex, text)
    }
}

/// Whether `%{` stands in a pattern.
#[tactic(auto, unfolding(crate::specs::Patterns::has_expansion))]
fn has_expansion(source: &[u8]) -> bool
    ensures { result ≡ has_expansion source.now }
{
    let mut rest = source;
    while let Some((octet, after)) = rest.split_first() {
        if *octet == b'%' && after.first() == Some(&b'{') {
            return true;
        }
        rest = after;
    }
    false
}

/// What `regex` makes of a pattern's text: the compiled pattern, or none where the text writes none.
fn built(
    alloc: Global,
    source: &str,
    insensitive: bool,
) -> Result<Option<CompiledPattern>, NoMemory>
    ensures { IfOk result (IsBuilt source.now insensitive) }
{
    match RegexBuilder::new(source)
        .case_insensitive(insensitive)
        .build_bytes(alloc)
    {
        Ok(regex) => Ok(Some(CompiledPattern { regex })),
        Err(Error::Syntax(_)) => Ok(None),
        // A pattern that would take more than 10 MiB when compiled is want of memory, as is a failed allocation.
        Err(_) => Err(NoMemory),
    }
}

/// The pattern, compiled; none where it contains `%{`, is no UTF-8, or is none by its text.
pub fn compiled(alloc: Global, pattern: &Pattern) -> Result<Option<CompiledPattern>, NoMemory>
    ensures { IfOk result (IsAnswerTo pattern.now) }
{
    if has_expansion(pattern.source.as_slice()) {
        return Ok(None);
    }
    match str::from_utf8(pattern.source.as_slice()) {
        Ok(source) => built(alloc, source, pattern.insensitive),
        Err(_) => Ok(None),
    }
}
