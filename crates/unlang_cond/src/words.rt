//! Bare words and quoted texts of a condition.

ghost use Rattle.std.specs.Prelude.{◌≡◌, ◌≤◌, [], length, IfOk};
ghost use Rattle.rad_conf.specs.declared.spelling.Spelling.{Spelling};
ghost use Rattle.unlang_cond.specs.Words.{ends_bare, bare_left, bare_len, written};

use rad_conf::sign::{octet_at, sign_at};
use rad_conf::{QuotedSpelling, push_escape};
use rad_outside::{NoMemory, Octets};
use std::alloc::Global;

/// Whether a bare word ends before the text where one of a configuration might go on.
#[tactic(auto, unfolding(crate::specs::Words::ends_bare))]
fn ends_bare(text: &[u8]) -> bool
    ensures { result ≡ ends_bare text.now }
{
    matches!(
        (octet_at(text, 0), octet_at(text, 1)),
        (b'(' | b')', _) | (b'&', b'&') | (b'|', b'|')
    )
}

/// How many octets of a bare word are left where so many are passed over.
fn bare_left(passed: usize, text: &[u8]) -> usize
    requires { passed ≤ length text.now }
    ensures exact { result ≡ bare_left passed text.now }
    ensures within { result ≤ length text.now }
{
    if passed > 0 {
        passed
    } else if ends_bare(text) {
        0
    } else {
        sign_at(text).bare_octets()
    }
}

/// The length of the bare word at the front.
#[tactic(auto, unfolding(crate::specs::Words::bare_len))]
pub fn bare_len(text: &[u8]) -> usize
    ensures length { result ≡ bare_len 0 text.now }
    ensures within { result ≤ length text.now }
{
    let mut len = 0;
    let mut passed = 0;
    let mut rest = text;
    while let Some((_, after)) = rest.split_first() {
        let left = bare_left(passed, rest);
        if left == 0 {
            break;
        }
        passed = left - 1;
        len += 1;
        rest = after;
    }
    len
}

/// The text that octets between quotes write.
#[tactic(auto, unfolding(crate::specs::Words::written_from))]
pub fn written(alloc: Global, how: QuotedSpelling, raw: &[u8]) -> Result<Octets, NoMemory>
    ensures { IfOk result (λ text. text ≡ written how raw.now) }
{
    let mut out = Vec::new(alloc);
    let mut escaped = false;
    let mut rest = raw;
    while let Some((octet, after)) = rest.split_first() {
        let c = *octet;
        if escaped {
            push_escape(how, &mut out, c)?;
            escaped = false;
        } else if c == b'\\' {
            escaped = true;
        } else {
            out.push(c)?;
        }
        rest = after;
    }
    Ok(Octets::from_vec(out))
}
