//! How a user's name is parted.

ghost use Rattle.std.specs.Prelude.{◌≡◌, ◌==◌, ◌<◌, ◌-◌, ◌+◌, position, reverse, length, take, drop, codes, IfSome};
ghost use Rattle.mod_realm.specs.Parting.{parted};

/// The octets that stand for the realm of a name without a delimiter.
const NULL: &[u8] = b"NULL";

/// Where a realm stands in a user's name.
#[derive(Clone, Copy, Debug, PartialEq, Eq)]
pub enum RealmFormat {
    /// Behind the last delimiter, as in `user@realm`.
    Suffix,
    /// Before the first delimiter, as in `realm/user`.
    Prefix,
}

/// The parts of a name: the user, and the realm as it is written.
#[derive(Clone, Copy)]
pub(crate) struct Parts<'a> {
    pub user: &'a [u8],
    pub realm: &'a [u8],
}

/// How many octets stand behind the last delimiter, and none where there is no delimiter.
fn behind_last(name: &[u8], delimiter: u8) -> Option<usize>
    ensures place { result ≡ position (λ octet. octet == delimiter) (reverse name.now) }
    ensures within { IfSome result (λ behind. behind < length name.now) }
{
    name.iter().rev().position(|octet| *octet == delimiter)
}

/// How many octets stand before the first delimiter, and none where there is no delimiter.
fn before_first(name: &[u8], delimiter: u8) -> Option<usize>
    ensures place { result ≡ position (λ octet. octet == delimiter) name.now }
    ensures within { IfSome result (λ before. before < length name.now) }
{
    name.iter().position(|octet| *octet == delimiter)
}

/// What stands before a place of a name and what behind it.
fn around(name: &[u8], place: usize) -> (&[u8], &[u8])
    requires { place < length name.now }
    ensures before { result.0.now ≡ take place name.now }
    ensures behind { result.1.now ≡ drop (place + 1) name.now }
{
    let (before, _) = name.split_at(place);
    let (_, behind) = name.split_at(place + 1);
    (before, behind)
}

/// The parts of a name without a delimiter.
fn unparted(name: &[u8]) -> Parts<'_>
    ensures user { result.user.now ≡ name.now }
    ensures realm { result.realm.now ≡ codes "NULL" }
{
    Parts {
        user: name,
        realm: NULL,
    }
}

/// The parts of a name.
pub(crate) fn parted(format: RealmFormat, delimiter: u8, name: &[u8]) -> Parts<'_>
    ensures user { result.user.now ≡ (parted format delimiter name.now).0 }
    ensures realm { result.realm.now ≡ (parted format delimiter name.now).1 }
{
    match format {
        RealmFormat::Suffix => match behind_last(name, delimiter) {
            None => unparted(name),
            Some(behind) => {
                let (user, realm) = around(name, name.len() - behind - 1);
                Parts { user, realm }
            }
        },
        RealmFormat::Prefix => match before_first(name, delimiter) {
            None => unparted(name),
            Some(before) => {
                let (realm, user) = around(name, before);
                Parts { user, realm }
            }
        },
    }
}
