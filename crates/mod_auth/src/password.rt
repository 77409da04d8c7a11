//! Whether a password is the one that is known.

ghost use Rattle.std.specs.Prelude.{◌≡◌, ◌≢◌, ◌++◌, None, IfOk, OnOk};
ghost use Rattle.std.specs.Char.{is_ascii_hexdigit};
ghost use Rattle.std.specs.List.{list_all};
ghost use Rattle.hex.specs.declared.error.FromHexError.TheVariants.{OutOfMemory};
ghost use Rattle.sha1.specs.Sha1.{sha1};
ghost use Rattle.mod_auth.specs.Password.{verdict, plain_octets, digested, salted, by_scheme, compared};

use crate::compare::is_same;
use crate::scheme::{Scheme, scheme_of};
use hex::FromHexError;
use md5::{Digest, Md5};
use mod_lists::octets_of;
use rad_outside::{NoMemory, Octets};
use rad_value::Pair;
use rad_words::Code;
use sha1::Sha1;
use std::alloc::Global;

/// The octets of a SHA-1.
const SHA_LENGTH: usize = 20;

/// The code for a comparison that was made.
pub(crate) fn verdict(equal: bool) -> Code
    ensures { result ≡ verdict equal }
{
    if equal { Code::Ok } else { Code::Reject }
}

/// Whether a value is nothing but hexadecimal digits, of either case.
fn is_digits(value: &[u8]) -> bool
    ensures { result ≡ list_all is_ascii_hexdigit value.now }
{
    value.iter().all(|octet| octet.is_ascii_hexdigit())
}

/// What is left to say of digits that weren't decoded.
fn refused(fault: FromHexError) -> Result<Option<Octets>, NoMemory>
    ensures none { IfOk result (λ octets. octets ≡ None) }
    ensures cause { OnOk result (fault ≢ OutOfMemory) }
{
    match fault {
        FromHexError::OutOfMemory => Err(NoMemory),
        FromHexError::InvalidHexCharacter { .. }
        | FromHexError::OddLength
        | FromHexError::InvalidStringLength => Ok(None),
    }
}

/// The octets that a digest's value stands for: those that its digits spell where it is nothing but hexadecimal digits, and
/// its own otherwise. None where it is an odd number of digits.
fn plain_octets(alloc: Global, value: &[u8]) -> Result<Option<Octets>, NoMemory>
    ensures { IfOk result (λ octets. octets ≡ plain_octets value.now) }
{
    if !is_digits(value) {
        return Ok(Some(Octets::of(alloc, value)?));
    }
    match hex::decode(alloc, value) {
        Ok(octets) => Ok(Some(Octets::from_vec(octets))),
        Err(fault) => refused(fault),
    }
}

/// Compares a digest with the octets by which it is known.
fn digested(digest: &[u8], known: Option<Octets>) -> Code
    ensures { result ≡ digested digest.now known }
{
    match known {
        Some(known) if known.as_slice().len() == digest.len() => {
            verdict(is_same(known.as_slice(), digest))
        }
        _ => Code::Invalid,
    }
}

/// Compares the SHA-1 of a password and a salt, and the salt behind, with the octets by which it is known.
fn salted(password: &[u8], known: Option<Octets>) -> Code
    ensures { result ≡ salted password.now known }
{
    match known {
        Some(known) if known.as_slice().len() > SHA_LENGTH => {
            let (digest, salt) = known.as_slice().split_at(SHA_LENGTH);
            verdict(is_same(digest, sha_of(password, salt).as_slice()))
        }
        _ => Code::Invalid,
    }
}

/// The SHA-1 of a password and a salt.
fn sha_of(password: &[u8], salt: &[u8]) -> [u8; 20]
    ensures { result ≡ sha1 (password.now ++ salt.now) }
{
    let mut hasher = Sha1::new();
    hasher.update(password);
    hasher.update(salt);
    hasher.finalize()
}

/// Compares a password with a value by which it is known.
fn by_scheme(alloc: Global, scheme: Scheme, password: &[u8], known: &[u8]) -> Result<Code, NoMemory>
    ensures { IfOk result (λ code. code ≡ by_scheme scheme password.now known.now) }
{
    Ok(match scheme {
        Scheme::Cleartext => verdict(is_same(known, password)),
        Scheme::Md5 => digested(&Md5::digest(password), plain_octets(alloc, known)?),
        Scheme::Sha => digested(&Sha1::digest(password), plain_octets(alloc, known)?),
        Scheme::SaltedSha => salted(password, plain_octets(alloc, known)?),
    })
}

/// Compares a password with the pair by which it is known.
pub(crate) fn compared(alloc: Global, password: &[u8], known: &Pair) -> Result<Code, NoMemory>
    ensures { IfOk result (λ code. code ≡ compared password.now known.now) }
{
    match (scheme_of(known.attr), octets_of(&known.value)) {
        (Some(scheme), Some(octets)) => by_scheme(alloc, scheme, password, octets),
        _ => Ok(Code::Invalid),
    }
}
