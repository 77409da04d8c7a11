//! What stands at the front of a text.

ghost use Rattle.std.specs.Prelude.{◌≡◌, ◌+◌, ◌≤◌, ◌<◌, length, slice_index, drop, IfSome};
ghost use Rattle.rad_conf.specs.Signs.{sign_at, longer_sign, is_operator_pair, is_operator_octet, operator_at, braces_after, inside_from, braces_at, variable_at, is_count, bare_at, bare_octets, is_open, ends_item, sign_len};

/// What stands at the front of a text.
#[derive(Clone, Copy, Debug, PartialEq, Eq)]
pub enum Sign {
    /// The text's end.
    End,
    Blank,
    LineEnd,
    Comma,
    Open,
    Close,
    Comment,
    /// A double quote.
    Double,
    /// A single quote.
    Single,
    /// An operator, by its length in octets.
    Operator(usize),
    /// So many octets of a bare word.
    Bare(usize),
}

impl Sign {
    /// How many octets of a bare word it has.
    pub fn bare_octets(self) -> usize
        ensures { result ≡ bare_octets self }
    {
        match self {
            Sign::Bare(len) => len,
            _ => 0,
        }
    }

    pub fn is_open(self) -> bool
        ensures { result ≡ is_open self }
    {
        matches!(self, Sign::Open)
    }

    /// Whether an item ends where this sign stands.
    pub fn ends_item(self) -> bool
        ensures { result ≡ ends_item self }
    {
        matches!(
            self,
            Sign::End | Sign::LineEnd | Sign::Comma | Sign::Close | Sign::Comment
        )
    }
}

#[tactic(auto, unfolding(crate::specs::Signs::is_operator_pair))]
fn is_operator_pair(octet: u8, next: u8) -> bool
    ensures { result ≡ is_operator_pair octet next }
{
    matches!(
        (octet, next),
        (b':' | b'+' | b'-' | b'=' | b'!' | b'<' | b'>', b'=') | (b'=' | b'!', b'~' | b'*')
    )
}

#[tactic(auto, unfolding(crate::specs::Signs::is_operator_octet))]
fn is_operator_octet(octet: u8) -> bool
    ensures { result ≡ is_operator_octet octet }
{
    matches!(octet, b'=' | b'<' | b'>')
}

/// The length of the longest operator that begins with an octet, by the next one.
#[tactic(auto, unfolding(crate::specs::Signs::operator_at))]
pub fn operator_at(octet: u8, next: u8) -> usize
    ensures { result ≡ operator_at octet next }
{
    if is_operator_pair(octet, next) {
        2
    } else if is_operator_octet(octet) {
        1
    } else {
        0
    }
}

/// The octet at an index, or 0 past the end.
pub fn octet_at(text: &[u8], at: usize) -> u8
    ensures { result ≡ slice_index text.now at }
{
    text.get(at).copied().unwrap_or(0)
}

/// What follows the first octet.
pub fn after_first(text: &[u8]) -> &[u8]
    ensures rest { result.now ≡ drop 1 text.now }
{
    match text {
        [] => text,
        [_, rest @ ..] => rest,
    }
}

/// How many braces are open behind an octet.
#[tactic(auto, unfolding(crate::specs::Signs::braces_after))]
fn braces_after(octet: u8, depth: usize) -> usize
    requires { depth < 9223372036854775807 }
    ensures exact { result ≡ braces_after octet depth }
    ensures within { result ≤ depth + 1 }
{
    match octet {
        b'{' => depth + 1,
        b'}' => depth.saturating_sub(1),
        _ => depth,
    }
}

/// How many octets stand between the braces of a `{..}` at the front.
#[tactic(auto, unfolding(crate::specs::Signs::braces_at, crate::specs::Signs::inside_from))]
pub fn braces_at(text: &[u8]) -> Option<usize>
    ensures exact { result ≡ braces_at text.now }
    ensures within { IfSome result (λ len. len + 2 ≤ length text.now) }
{
    if octet_at(text, 0) != b'{' {
        return None;
    }
    let mut depth = 0;
    let mut len = 0;
    let mut rest = after_first(text);
    while let Some((octet, after)) = rest.split_first() {
        let c = *octet;
        if c == b'\n' {
            return None;
        }
        if c == b'}' && depth == 0 {
            return Some(len);
        }
        depth = braces_after(c, depth);
        len += 1;
        rest = after;
    }
    None
}

/// How many octets stand between the braces of a `${..}` at the front.
#[tactic(auto, unfolding(crate::specs::Signs::variable_at))]
pub fn variable_at(text: &[u8]) -> Option<usize>
    ensures exact { result ≡ variable_at text.now }
    ensures within { IfSome result (λ len. len + 3 ≤ length text.now) }
{
    if octet_at(text, 0) != b'$' {
        return None;
    }
    braces_at(after_first(text))
}

#[tactic(auto, unfolding(crate::specs::Signs::is_count))]
fn is_count(octet: u8, next: u8, last: u8) -> bool
    ensures { result ≡ is_count octet next last }
{
    octet == b'[' && next == b'#' && last == b']'
}

/// How many octets of a bare word begin with an octet that is no sign by itself.
#[tactic(auto, unfolding(crate::specs::Signs::bare_at, crate::specs::Signs::is_count))]
fn bare_at(octet: u8, rest: &[u8]) -> usize
    ensures exact { result ≡ bare_at octet rest.now }
    ensures within { result ≤ length rest.now + 1 }
{
    if is_count(octet, octet_at(rest, 0), octet_at(rest, 1)) {
        return 3;
    }
    if octet != b'$' && octet != b'%' {
        return 1;
    }
    match braces_at(rest) {
        None => 1,
        Some(len) => len + 3,
    }
}

#[tactic(auto, unfolding(crate::specs::Signs::longer_sign, crate::specs::Signs::operator_at, crate::specs::Signs::is_operator_pair))]
fn longer_sign(octet: u8, rest: &[u8]) -> Sign
    ensures exact { result ≡ longer_sign octet rest.now }
    ensures within { sign_len result ≤ length rest.now + 1 }
{
    let operator = operator_at(octet, octet_at(rest, 0));
    if operator == 0 {
        Sign::Bare(bare_at(octet, rest))
    } else {
        Sign::Operator(operator)
    }
}

#[tactic(auto, unfolding(crate::specs::Signs::sign_at))]
pub fn sign_at(text: &[u8]) -> Sign
    ensures exact { result ≡ sign_at text.now }
    ensures within { sign_len result ≤ length text.now }
{
    let Some((octet, rest)) = text.split_first() else {
        return Sign::End;
    };
    match *octet {
        b' ' | b'\t' => Sign::Blank,
        b'\n' => Sign::LineEnd,
        b',' => Sign::Comma,
        b'{' => Sign::Open,
        b'}' => Sign::Close,
        b'#' => Sign::Comment,
        b'"' => Sign::Double,
        b'\'' => Sign::Single,
        other => longer_sign(other, rest),
    }
}
