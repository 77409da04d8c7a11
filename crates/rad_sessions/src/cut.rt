//! A text up to a mark.

ghost use Rattle.std.specs.Prelude.{◌≡◌, ◌<◌, ◌≤◌, length, IfSome};
ghost use Rattle.std.specs.Option.{option_map};
ghost use Rattle.rad_sessions.specs.Log.{mark_at, cut_at};

/// How many octets stand before the first mark; all of them where there is none.
#[tactic(auto, unfolding(crate::specs::Log::mark_at))]
fn mark_at(mark: u8, text: &[u8]) -> usize
    ensures exact { result ≡ mark_at mark text.now }
    ensures within { result ≤ length text.now }
{
    let mut place = 0;
    let mut rest = text;
    while let Some((octet, after)) = rest.split_first() {
        if *octet == mark {
            break;
        }
        place += 1;
        rest = after;
    }
    place
}

/// The octets before the first mark, and those behind it; nothing where there is no mark.
#[tactic(auto, unfolding(crate::specs::Log::cut_at))]
pub(crate) fn cut_at(mark: u8, text: &[u8]) -> Option<(&[u8], &[u8])>
    ensures exact { option_map (λ x. (x.0.now, x.1.now)) result ≡ cut_at mark text.now }
    ensures shorter { IfSome result (λ x. length x.1.now < length text.now) }
{
    let place = mark_at(mark, text);
    if place < text.len() {
        let (word, _) = text.split_at(place);
        let (_, behind) = text.split_at(place + 1);
        Some((word, behind))
    } else {
        None
    }
}
