//! What vouches for a packet: the digests of its authenticator, and the attribute Message-Authenticator (RFC 2865 section 3,
//! RFC 2866 section 3, RFC 3579 section 3.2).

ghost use Rattle.std.specs.Prelude.{◌≡◌, ◌≢◌, ◌==◌, ◌≤◌, ◌++◌, List, ℕ, length, map, replicate, slice_get};
ghost use Rattle.std.specs.Bool.{OnFalse, OnTrue};
ghost use Rattle.std.specs.List.{flat_map};
ghost use Rattle.std.specs.Option.{option_copied, option_map};
ghost use Rattle.md5.specs.Md5.{Holds};
ghost use Rattle.rad_packet.specs.Packet.{Attribute, AreAttributes, IsWellFormed, spelled};
ghost use Rattle.rad_packet.specs.Front.{IsSplit};
ghost use Rattle.rad_packet.specs.Signatures.{
  IsIntact,
  IsTampered,
  accounting_authenticator,
  digest_with,
  message_authenticator,
  of_kind,
  zeroed,
};

use crate::attributes::{Front, split_front};
use crate::hmac::{inner_digest, key_block, outer_digest};
use md5::{Digest, Md5};

/// The type of Message-Authenticator (RFC 3579 section 3.2).
const MESSAGE_AUTHENTICATOR: u8 = 80;

/// The digest of a packet with these 16 octets in the place of its authenticator: the MD5 of Code, Identifier, Length,
/// those octets, attributes and secret (RFC 2865 section 3).
pub fn digest_with(packet: &[u8], authenticator: &[u8], secret: &[u8]) -> [u8; 16]
    requires { 20 ≤ length packet.now }
    ensures { result ≡ digest_with packet.now authenticator.now secret.now }
{
    let (head, _) = packet.split_at(4);
    let (_, attributes) = packet.split_at(20);
    let mut hasher = Md5::new();
    hasher.update(head);
    hasher.update(authenticator);
    hasher.update(attributes);
    hasher.update(secret);
    hasher.finalize()
}

/// The authenticator that an Accounting-Request has to have: the digest with sixteen zero octets (RFC 2866 section 3).
pub fn accounting_authenticator(packet: &[u8], secret: &[u8]) -> [u8; 16]
    requires { 20 ≤ length packet.now }
    ensures { result ≡ accounting_authenticator packet.now secret.now }
{
    digest_with(packet, &[0; 16], secret)
}

/// The value that Message-Authenticator has to have in a packet, with the Request Authenticator (RFC 3579 section 3.2).
pub fn message_authenticator(packet: &[u8], authenticator: &[u8], secret: &[u8]) -> [u8; 16]
    requires { IsWellFormed packet.now }
    ensures { result ≡ message_authenticator packet.now authenticator.now secret.now }
{
    let (head, _) = packet.split_at(4);
    let (_, attributes) = packet.split_at(20);
    let key = key_block(secret);
    let mut inner = inner_digest(&key);
    inner.update(head);
    inner.update(authenticator);
    update_zeroed(&mut inner, attributes);
    outer_digest(&key, inner)
}

/// Gives the attributes to a digest, a Message-Authenticator with sixteen zero octets.
fn update_zeroed(hasher: &mut Md5, attributes: &[u8])
    ensures { (text : List ℕ) (all : List Attribute) → Holds hasher.old text → AreAttributes all attributes.now
        → Holds hasher.new (text ++ flat_map spelled (map zeroed all)) }
{
    let mut rest = attributes;
    while let Some(front) = split_front(rest) {
        update_zeroed_front(hasher, &front);
        rest = front.rest;
    }
}

/// Gives one attribute to a digest, a Message-Authenticator with sixteen zero octets.
fn update_zeroed_front(hasher: &mut Md5, front: &Front)
    ensures { (text octets : List ℕ) → Holds hasher.old text
        → IsSplit octets front.now.kind front.now.octets.now front.now.value.now front.now.rest.now
        → Holds hasher.new (text ++ spelled (zeroed (record { kind = front.now.kind; value = front.now.value.now }))) }
{
    if front.kind == MESSAGE_AUTHENTICATOR {
        hasher.update(&[MESSAGE_AUTHENTICATOR, 18]);
        hasher.update(&[0; 16]);
    } else {
        hasher.update(front.octets);
    }
}

/// How many attributes of this type stand among these.
fn count_of_kind(kind: u8, attributes: &[u8]) -> usize
    ensures { (all : List Attribute) → AreAttributes all attributes.now → result ≡ length (of_kind kind all) }
{
    let mut count = 0;
    let mut rest = attributes;
    while let Some(front) = split_front(rest) {
        if front.kind == kind {
            count += 1;
        }
        rest = front.rest;
    }
    count
}

/// Whether one attribute of this type stands among these, and no second one.
fn stands_once(kind: u8, attributes: &[u8]) -> bool
    ensures { (all : List Attribute) → AreAttributes all attributes.now → result ≡ (length (of_kind kind all) == 1) }
{
    count_of_kind(kind, attributes) == 1
}

/// The value of the first attribute of this type among these.
fn first_of_kind(kind: u8, attributes: &[u8]) -> Option<&[u8]>
    ensures { (all : List Attribute) → AreAttributes all attributes.now
        → option_copied result ≡ option_map (λ (a : Attribute). a.value) (slice_get (of_kind kind all) 0) }
{
    let mut rest = attributes;
    while let Some(front) = split_front(rest) {
        if front.kind == kind {
            return Some(front.value);
        }
        rest = front.rest;
    }
    None
}

/// Whether a packet has no Message-Authenticator, or one with the right value under the secret and the Request
/// Authenticator (RFC 3579 section 3.2).
pub fn is_intact(packet: &[u8], authenticator: &[u8], secret: &[u8]) -> bool
    requires { IsWellFormed packet.now }
    ensures yes { OnTrue result (IsIntact packet.now authenticator.now secret.now) }
    ensures no { OnFalse result (IsTampered packet.now authenticator.now secret.now) }
{
    let (_, attributes) = packet.split_at(20);
    match first_of_kind(MESSAGE_AUTHENTICATOR, attributes) {
        None => true,
        Some(value) => {
            stands_once(MESSAGE_AUTHENTICATOR, attributes)
                && is_message_authenticator(value, packet, authenticator, secret)
        }
    }
}

/// Whether this is the value that Message-Authenticator has to have in the packet.
fn is_message_authenticator(
    value: &[u8],
    packet: &[u8],
    authenticator: &[u8],
    secret: &[u8],
) -> bool
    requires { IsWellFormed packet.now }
    ensures yes { OnTrue result (value.now ≡ message_authenticator packet.now authenticator.now secret.now) }
    ensures no { OnFalse result (value.now ≢ message_authenticator packet.now authenticator.now secret.now) }
{
    value == message_authenticator(packet, authenticator, secret).as_slice()
}
