//! How a User-Password is hidden in a packet: RFC 2865 section 5.2.

ghost use Rattle.std.specs.Prelude.{◌≡◌, ◌≤◌, List, ℕ, length, take, IfErr, IfOk, IsTrue, OnOk};
ghost use Rattle.rad_packet.specs.Hiding.{
  HasNoTrailingZero,
  HideRefused,
  IsHiddenLength,
  RevealRefused,
  carried,
  hidden,
  is_hidden_length,
  padded,
  padding_after,
  revealed,
  without_trailing_zeros,
};

use crate::block::{block_digest, hide_blocks, reveal_blocks};
use rad_outside::{NoMemory, Octets};
use std::alloc::{AllocError, Global};
use thiserror::Error;

/// The most octets of a password (RFC 2865 section 5.2).
const LONGEST: usize = 128;

/// Why a password isn't hidden.
#[derive(Debug, Drop, Error)]
pub enum HideFault {
    /// The password has more than 128 octets. So many it has.
    #[error("TooLong")]
    TooLong(u32),
    #[error("NoMemory")]
    NoMemory,
}

impl From<NoMemory> for HideFault {
    ghost use Rattle.rad_packet.specs.declared.hiding.HideFault.TheVariants as fault;

    ghost from_gives = { λ _ e. e ≡ fault.NoMemory };

    fn from(_e: NoMemory) -> HideFault {
        HideFault::NoMemory
    }
}

/// Why octets aren't revealed.
#[derive(Debug, Drop, Error)]
pub enum RevealFault {
    /// There are no octets, more than 128, or no multiple of 16. So many there are.
    #[error("BadLength")]
    BadLength(u32),
    #[error("NoMemory")]
    NoMemory,
}

impl From<NoMemory> for RevealFault {
    ghost use Rattle.rad_packet.specs.declared.hiding.RevealFault.TheVariants as fault;

    ghost from_gives = { λ _ e. e ≡ fault.NoMemory };

    fn from(_e: NoMemory) -> RevealFault {
        RevealFault::NoMemory
    }
}

/// A password of at most 128 octets as a User-Password carries it: 16 to 128 octets, a multiple of 16
/// (RFC 2865 section 5.2).
pub fn hide(
    alloc: Global,
    password: &[u8],
    secret: &[u8],
    authenticator: &[u8; 16],
) -> Result<Octets, HideFault>
    ensures hidden { IfOk result (λ octets. octets ≡ hidden password.now secret.now authenticator.now) }
    ensures taken { OnOk result (length password.now ≤ 128) }
    ensures refused { IfErr result (HideRefused password.now) }
{
    if password.len() > LONGEST {
        return Err(HideFault::TooLong(carried(password.len())));
    }
    let padded = pad(alloc, password)?;
    let first = block_digest(secret, authenticator);
    let hidden = hide_blocks(alloc, padded.as_slice(), secret, first)?;
    Ok(Octets::from_vec(hidden))
}

/// The password that these octets of a User-Password hide, without the zero octets at its end
/// (RFC 2865 section 5.2).
pub fn reveal(
    alloc: Global,
    hidden: &[u8],
    secret: &[u8],
    authenticator: &[u8; 16],
) -> Result<Octets, RevealFault>
    ensures revealed { IfOk result (λ octets. octets ≡ revealed hidden.now secret.now authenticator.now) }
    ensures taken { OnOk result (IsHiddenLength (length hidden.now)) }
    ensures refused { IfErr result (RevealRefused hidden.now) }
{
    if !is_hidden_length(hidden.len()) {
        return Err(RevealFault::BadLength(carried(hidden.len())));
    }
    Ok(revealed(alloc, hidden, secret, authenticator)?)
}

/// Whether so many octets can be a hidden password: 16 to 128, a multiple of 16.
pub fn is_hidden_length(count: usize) -> bool
    ensures { result ≡ is_hidden_length count }
{
    0 < count && count <= LONGEST && count % 16 == 0
}

/// The password that octets of such a number hide, without the zero octets at its end. The authenticator has 16.
pub fn revealed(
    alloc: Global,
    hidden: &[u8],
    secret: &[u8],
    authenticator: &[u8],
) -> Result<Octets, NoMemory>
    requires { IsTrue (is_hidden_length (length hidden.now)) }
    ensures { IfOk result (λ octets. octets ≡ revealed hidden.now secret.now authenticator.now) }
{
    let first = block_digest(secret, authenticator);
    let mut password = reveal_blocks(alloc, hidden, secret, first)?;
    password.truncate(count_without_zeros(password.as_slice()));
    Ok(Octets::from_vec(password))
}

/// A number of octets as an error carries it, cut at the end of 32 bits.
pub fn carried(count: usize) -> u32
    ensures { result ≡ carried count }
{
    u32::try_from(count).unwrap_or(u32::MAX)
}

/// The password with zero octets after it up to a multiple of 16, and up to 16 where it is empty.
fn pad(alloc: Global, password: &[u8]) -> Result<Vec<u8>, NoMemory>
    requires { length password.now ≤ 128 }
    ensures { IfOk result (λ octets. octets.items ≡ padded password.now) }
{
    let zeros = [0; 16];
    let (padding, _) = zeros.split_at(padding_after(password.len()));
    let mut octets = Vec::from_slice(alloc, password)?;
    octets.extend_from_slice(padding)?;
    Ok(octets)
}

/// How many octets fill so many up to the next multiple of 16, and no octets up to 16.
fn padding_after(count: usize) -> usize
    ensures value { result ≡ padding_after count }
    ensures bound { result ≤ 16 }
{
    if count == 0 {
        16
    } else {
        15 - (count - 1) % 16
    }
}

/// How many octets are left without the zero octets at the end.
fn count_without_zeros(octets: &[u8]) -> usize
    ensures { take result octets.now ≡ without_trailing_zeros octets.now }
{
    let mut kept = octets.len();
    while kept > 0 && octets[kept - 1] == 0 {
        kept -= 1;
    }
    kept
}

/// What was hidden is revealed: a password of at most 128 octets is hidden as octets that can be revealed, and where
/// it has no zero octet at its end they give it back (RFC 2865 section 5.2). The function does nothing.
pub fn hidden_passwords_are_revealed()
    ensures length { (password secret authenticator : List ℕ) → length password ≤ 128
        → IsHiddenLength (length (hidden password secret authenticator)) }
    ensures undone { (password secret authenticator : List ℕ) → HasNoTrailingZero password
        → revealed (hidden password secret authenticator) secret authenticator ≡ password }
{}
