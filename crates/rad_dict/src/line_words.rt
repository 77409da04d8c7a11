//! The words of a line, each a part of the text at its front.

ghost use Rattle.std.specs.Prelude.{◌≡◌, ◌≤◌, length};
ghost use Rattle.std.specs.Option.{option_map};
ghost use Rattle.rad_dict.specs.LineWords.{word_len, word_at, is_ended, last_at};

use rad_text::{after_blanks, is_blank};

/// The length of the word at the front.
#[tactic(auto, unfolding(crate::specs::LineWords::word_len))]
fn word_len(text: &[u8]) -> usize
    ensures length { result ≡ word_len text.now }
    ensures within { result ≤ length text.now }
{
    let mut len = 0;
    let mut rest = text;
    while let Some((octet, after)) = rest.split_first() {
        if is_blank(*octet) || *octet == b'#' {
            break;
        }
        len += 1;
        rest = after;
    }
    len
}

/// The first word and what follows it, or none where only blanks and a comment are left.
#[tactic(auto, unfolding(crate::specs::LineWords::word_at))]
pub fn word_at(text: &[u8]) -> Option<(&[u8], &[u8])>
    ensures { option_map (λ x. (x.0.now, x.1.now)) result ≡ word_at text.now }
{
    let start = after_blanks(text);
    match word_len(start) {
        0 => None,
        len => Some(start.split_at(len)),
    }
}

/// Whether no word is left.
pub fn is_ended(text: &[u8]) -> bool
    ensures { result ≡ is_ended text.now }
{
    word_at(text).is_none()
}

/// Whether one more word stands there and nothing behind it; none where more than one does.
#[tactic(auto, unfolding(crate::specs::LineWords::last_at))]
pub fn last_at(text: &[u8]) -> Option<bool>
    ensures { result ≡ last_at text.now }
{
    match word_at(text) {
        None => Some(false),
        Some((_, rest)) if is_ended(rest) => Some(true),
        Some(_) => None,
    }
}
