//! The lines of a text, with those that are joined as one.

ghost use Rattle.std.specs.Prelude.{◌≡◌, ◌+◌, ◌≤◌, ◌++◌, length, replicate, IfOk, OnOk};
ghost use Rattle.rad_conf.specs.Lines.{is_line_end, lines_of};

use crate::sign::octet_at;
use rad_outside::NoMemory;
use std::alloc::Global;

/// Whether a line's end stands at the front.
#[tactic(auto, unfolding(crate::specs::Lines::is_line_end))]
fn is_line_end(text: &[u8]) -> bool
    ensures { result ≡ is_line_end text.now }
{
    octet_at(text, 0) == b'\n' || (octet_at(text, 0) == b'\r' && octet_at(text, 1) == b'\n')
}

/// Adds so many newlines.
fn push_newlines(out: &mut Vec<u8>, count: usize) -> Result<(), NoMemory>
    ensures { OnOk result (out.new.items ≡ out.old.items ++ replicate count 10) }
{
    for _ in 0..count {
        out.push(b'\n')?;
    }
    Ok(())
}

/// The lines of a text, with those that are joined as one, and as many newlines as the text has.
#[tactic(auto, unfolding(crate::specs::Lines::lines_from))]
pub fn lines_of(alloc: Global, text: &[u8]) -> Result<Vec<u8>, NoMemory>
    ensures exact { IfOk result (λ lines. lines.items ≡ lines_of text.now) }
    ensures shorter { IfOk result (λ lines. length lines.items ≤ length text.now) }
{
    let mut out = Vec::new(alloc);
    let mut joined = 0;
    let mut inside = false;
    let mut rest = text;
    while let Some((octet, after)) = rest.split_first() {
        let c = *octet;
        if inside {
            if c == b'\n' {
                joined += 1;
                inside = false;
            }
        } else if c == b'\\' && is_line_end(after) {
            inside = true;
        } else if c == b'\n' {
            push_newlines(&mut out, joined + 1)?;
            joined = 0;
        } else if !(c == b'\r' && octet_at(after, 0) == b'\n') {
            out.push(c)?;
        }
        rest = after;
    }
    push_newlines(&mut out, joined)?;
    Ok(out)
}
