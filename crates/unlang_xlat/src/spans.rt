//! Spans of an expansion's text.

ghost use Rattle.std.specs.Prelude.{◌≡◌, ◌≤◌, ◌<◌, length, IfSome};
ghost use Rattle.std.specs.Option.{option_map};
ghost use Rattle.unlang_xlat.specs.Spans.{len_before, behind, behind_sign, plain_len};

/// How many octets of the text stand before the first that is one of these two.
#[tactic(auto, unfolding(crate::specs::Spans::len_before))]
pub fn len_before(one: u8, other: u8, text: &[u8]) -> usize
    ensures length { result ≡ len_before one other text.now }
    ensures within { result ≤ length text.now }
{
    let mut len = 0;
    let mut rest = text;
    while let Some((octet, after)) = rest.split_first() {
        if *octet == one || *octet == other {
            break;
        }
        len += 1;
        rest = after;
    }
    len
}

/// How many octets of plain text stand at the front: up to a `%`, and within braces up to a `}`.
pub fn plain_len(inside: bool, text: &[u8]) -> usize
    ensures length { result ≡ plain_len inside text.now }
    ensures within { result ≤ length text.now }
{
    if inside {
        len_before(b'%', b'}', text)
    } else {
        len_before(b'%', b'%', text)
    }
}

/// What follows the octet, where it stands at the front.
pub fn behind(octet: u8, text: &[u8]) -> Option<&[u8]>
    ensures exact { option_map (λ rest. rest.now) result ≡ behind octet text.now }
    ensures shorter { IfSome result (λ rest. length rest.now < length text.now) }
{
    match text.split_first() {
        Some((first, rest)) if *first == octet => Some(rest),
        _ => None,
    }
}

/// What follows the sign `:-`, where it stands at the front.
pub fn behind_sign(text: &[u8]) -> Option<&[u8]>
    ensures exact { option_map (λ rest. rest.now) result ≡ behind_sign text.now }
    ensures shorter { IfSome result (λ rest. length rest.now < length text.now) }
{
    match text {
        [b':', b'-', rest @ ..] => Some(rest),
        _ => None,
    }
}
