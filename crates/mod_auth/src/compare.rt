//! Comparing secrets to their end.

ghost use Rattle.std.specs.Prelude.{◌≡◌};
ghost use Rattle.std.specs.Str.{bytes_eq};
ghost use Rattle.mod_auth.specs.Differences.{differences};

/// At how many places two texts differ, up to the shorter one's end. All places are looked at, also behind one that differs.
fn differences(one: &[u8], other: &[u8]) -> usize
    ensures { result ≡ differences one.now other.now }
{
    one.iter().zip(other).filter(|(x, y)| x != y).count()
}

/// Whether two texts are the same. Where they have one length, all of their octets are looked at.
pub(crate) fn is_same(one: &[u8], other: &[u8]) -> bool
    ensures { result ≡ bytes_eq one.now other.now }
{
    one.len() == other.len() && differences(one, other) == 0
}
