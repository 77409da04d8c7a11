//! Spots in a text: line and column.

ghost use Rattle.std.specs.Prelude.{◌≡◌, ◌+◌, ◌≤◌, length};
ghost use Rattle.rad_text.specs.Spots.{counted, capped, spot_of};

/// A spot in a text: its line, and its column in octets, both counted from 1. What is above 4,294,967,295 is carried as
/// that.
#[derive(Clone, Copy, Debug, PartialEq, Eq)]
pub struct Spot {
    pub line: u32,
    pub column: u32,
}

/// One more than the count, or the greatest of 32 bits where it is above that.
fn number(count: usize) -> u32
    ensures { result ≡ capped (count + 1) }
{
    (count.min(4_294_967_294) + 1) as u32
}

/// How many newlines a text has, and how many octets stand behind the last of them.
#[tactic(auto, unfolding(crate::specs::Spots::counted))]
fn counted(text: &[u8]) -> (usize, usize)
    ensures { result ≡ counted (0, 0) text.now }
{
    let mut lines = 0;
    let mut columns = 0;
    for octet in text {
        if *octet == b'\n' {
            lines += 1;
            columns = 0;
        } else {
            columns += 1;
        }
    }
    (lines, columns)
}

/// The spot from which on so many octets of a text are left.
#[tactic(auto, unfolding(crate::specs::Spots::spot_of))]
pub fn spot_of(text: &[u8], left: usize) -> Spot
    requires { left ≤ length text.now }
    ensures { result ≡ spot_of text.now left }
{
    let (read, _) = text.split_at(text.len() - left);
    let (lines, columns) = counted(read);
    Spot {
        line: number(lines),
        column: number(columns),
    }
}
