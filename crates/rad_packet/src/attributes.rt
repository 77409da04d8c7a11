//! Attributes, one after another: RFC 2865 section 5.

ghost use Rattle.std.specs.Bool.{OnFalse, OnTrue};
ghost use Rattle.std.specs.Prelude.{List, ℕ, IfNone, IfSome};
ghost use Rattle.rad_packet.specs.Packet.{Attribute, AreAttributes};
ghost use Rattle.rad_packet.specs.Front.{IsFront, IsSplit};

/// The attribute at the front of octets: its type, its octets from the type on, its value, and what follows it.
#[derive(Clone, Copy, Debug)]
pub struct Front<'a> {
    pub kind: u8,
    pub octets: &'a [u8],
    pub value: &'a [u8],
    pub rest: &'a [u8],
}

/// Splits the first attribute off. None where no attribute stands in front: there are fewer than two octets, or the
/// length is below 2 or runs past the end.
pub fn split_front(octets: &[u8]) -> Option<Front>
    ensures found { IfSome result (λ split. IsSplit octets.now split.kind split.octets.now split.value.now split.rest.now) }
    ensures none { IfNone result ((attribute : Attribute) (rest : List ℕ) → ¬ IsFront attribute octets.now rest) }
{
    if octets.len() < 2 {
        return None;
    }
    let size = usize::from(octets[1]);
    if size < 2 || size > octets.len() {
        return None;
    }
    let kind = octets[0];
    let (octets, rest) = octets.split_at(size);
    let (_, value) = octets.split_at(2);
    Some(Front {
        kind,
        octets,
        value,
        rest,
    })
}

/// Whether the octets are attributes, one after another, and nothing else.
pub fn are_attributes(octets: &[u8]) -> bool
    ensures yes { OnTrue result ((attributes : List Attribute) × AreAttributes attributes octets.now) }
    ensures no { OnFalse result ((attributes : List Attribute) → ¬ AreAttributes attributes octets.now) }
{
    let mut rest = octets;
    while let Some(front) = split_front(rest) {
        rest = front.rest;
    }
    rest.is_empty()
}
