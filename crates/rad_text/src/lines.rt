//! The lines of a text.

ghost use Rattle.std.specs.Prelude.{◌≡◌, ◌∷◌, ◌≤◌, ◌<◌, length, IfSome};
ghost use Rattle.std.specs.Option.{option_map};
ghost use Rattle.rad_text.specs.Lines.{after_line_end, lines_of, line_len};

/// What follows the line end at the front: a newline, or a carriage return directly before one.
#[tactic(auto, unfolding(crate::specs::Lines::after_line_end))]
pub fn after_line_end(text: &[u8]) -> Option<&[u8]>
    ensures exact { option_map (λ x. x.now) result ≡ after_line_end text.now }
    ensures shorter { IfSome result (λ x. length x.now < length text.now) }
{
    match text {
        [b'\n', rest @ ..] => Some(rest),
        [b'\r', b'\n', rest @ ..] => Some(rest),
        _ => None,
    }
}

/// The length of the first line, without its end.
#[tactic(auto, unfolding(crate::specs::Lines::line_len))]
fn line_len(text: &[u8]) -> usize
    ensures length { result ≡ line_len text.now }
    ensures within { result ≤ length text.now }
{
    let mut len = 0;
    let mut rest = text;
    while let Some((_, after)) = rest.split_first() {
        if after_line_end(rest).is_some() {
            break;
        }
        len += 1;
        rest = after;
    }
    len
}

/// The first line of a text that isn't empty, without its end, and what follows that.
pub fn first_line(text: &[u8]) -> (&[u8], &[u8])
    requires { 0 < length text.now }
    ensures lines { lines_of text.now ≡ result.0.now ∷ lines_of result.1.now }
    ensures shorter { length result.1.now < length text.now }
{
    let (line, rest) = text.split_at(line_len(text));
    match after_line_end(rest) {
        Some(after) => (line, after),
        None => (line, &[]),
    }
}
