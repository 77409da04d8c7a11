ghost use Rattle.std.specs.Prelude.{◌≡◌};
ghost use Rattle.std.specs.Option.{option_copied};
ghost use Rattle.std.specs.Option.{is_some};
ghost use Rattle.rad_value.specs.PairLists.{PairLists};
ghost use Rattle.mod_auth.specs.Known.{scheme_of, is_password, known_password};

use crate::attributes::{CLEARTEXT_PASSWORD, MD5_PASSWORD, SHA_PASSWORD, SSHA_PASSWORD};
use rad_value::{ListName, Lists, Pair};
use rad_words::AttrId;

/// How a password is known.
#[derive(Clone, Copy, Debug, PartialEq, Eq)]
pub(crate) enum Scheme {
    /// In clear.
    Cleartext,
    /// By its MD5.
    Md5,
    /// By its SHA-1.
    Sha,
    /// By the SHA-1 of it and a salt, and the salt behind.
    SaltedSha,
}

/// How a password is known by an attribute, where the attribute is one of the four.
pub(crate) fn scheme_of(attr: AttrId) -> Option<Scheme>
    ensures { result ≡ scheme_of attr }
{
    if attr == CLEARTEXT_PASSWORD {
        Some(Scheme::Cleartext)
    } else if attr == MD5_PASSWORD {
        Some(Scheme::Md5)
    } else if attr == SHA_PASSWORD {
        Some(Scheme::Sha)
    } else if attr == SSHA_PASSWORD {
        Some(Scheme::SaltedSha)
    } else {
        None
    }
}

/// Whether the pair is one of the four passwords.
fn is_password(pair: &Pair) -> bool
    ensures { result ≡ is_password pair.now }
{
    scheme_of(pair.attr).is_some()
}

/// The first pair of the control list that is one of the four passwords.
pub(crate) fn known_password(lists: &Lists) -> Option<&Pair>
    ensures { option_copied result ≡ known_password lists.now }
{
    for n in 0..lists.len(ListName::Control) {
        let Some(pair) = lists.get(ListName::Control, n) else {
            break;
        };
        if is_password(pair) {
            return Some(pair);
        }
    }
    None
}
