//! The marks of a text, read one at a time.

ghost use Rattle.std.specs.Prelude.{◌≡◌, ◌+◌, ◌<◌, ◌≤◌, length, IfOk};
ghost use Rattle.rad_text.specs.Read.{Gives};
ghost use Rattle.rad_conf.specs.Marks.{mark_at, lines_in};

use crate::fault::Wrong;
use crate::growth::Growth;
use crate::item::item_at;
use crate::sign::{Sign, after_first, sign_at};
use crate::tree::{Item, Word};
use crate::word::after_comment;
use rad_outside::Octets;
use rad_text::ReadError;
use std::alloc::Global;

/// What stands next in a text.
#[derive(Debug, Drop)]
pub enum Mark {
    /// Blanks, a comma or a comment.
    Passed,
    NextLine,
    /// A closing brace.
    Closes,
    /// An item that is no block.
    Whole(Item),
    /// A block up to its opening brace: its kind, its name where it has one, and how many lines end
    /// in that.
    Opens(Word, Option<Word>, usize),
    /// An include: whether the file may be missing, and its path.
    Includes(bool, Octets),
}

/// The mark at the front, and what follows it.
#[tactic(auto, unfolding(crate::specs::Marks::mark_at))]
pub fn mark_at<'a>(
    alloc: Global,
    growth: &Growth,
    text: &'a [u8],
) -> Result<(Mark, &'a [u8]), ReadError<Wrong>>
    requires { 0 < length text.now }
    ensures exact { Gives (λ x. (x.0, x.1.now)) result (mark_at growth.now text.now) }
    ensures shorter { IfOk result (λ x. length x.1.now < length text.now) }
    ensures lines { IfOk result (λ x. lines_in x.0 + length x.1.now ≤ length text.now) }
{
    match sign_at(text) {
        Sign::Blank | Sign::Comma => Ok((Mark::Passed, after_first(text))),
        Sign::LineEnd => Ok((Mark::NextLine, after_first(text))),
        Sign::Close => Ok((Mark::Closes, after_first(text))),
        Sign::Comment => Ok((Mark::Passed, after_comment(after_first(text)))),
        _ => item_at(alloc, growth, text),
    }
}
