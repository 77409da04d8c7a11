//! The part of a user.

ghost use Rattle.std.specs.Prelude.{◌≡◌};
ghost use Rattle.rad_sessions.specs.Parts.{part_of};

/// The sum of the octets of a user's name, modulo 256.
#[tactic(auto, unfolding(crate::specs::Parts::sum_after))]
pub(crate) fn part_of(user: &[u8]) -> usize
    ensures { result ≡ part_of user.now }
{
    let mut sum = 0usize;
    for octet in user {
        sum = (sum + usize::from(*octet)) % 256;
    }
    sum
}
