//! Blanks.

ghost use Rattle.std.specs.Prelude.{◌≡◌, ◌≤◌, length};
ghost use Rattle.rad_text.specs.Blanks.{is_blank, after_blanks};

/// Whether the octet is a space or a tab.
pub fn is_blank(octet: u8) -> bool
    ensures { result ≡ is_blank octet }
{
    matches!(octet, b' ' | b'\t')
}

/// What follows the blanks at the front.
#[tactic(auto, unfolding(crate::specs::Blanks::after_blanks))]
pub fn after_blanks(text: &[u8]) -> &[u8]
    ensures rest { result.now ≡ after_blanks text.now }
    ensures shorter { length result.now ≤ length text.now }
{
    let mut rest = text;
    while let Some((octet, after)) = rest.split_first() {
        if !is_blank(*octet) {
            break;
        }
        rest = after;
    }
    rest
}
