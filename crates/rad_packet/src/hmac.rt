//! HMAC with MD5: RFC 2104.

ghost use Rattle.std.specs.Prelude.{◌≡◌, ◌≤◌, ◌++◌, List, ℕ, length};
ghost use Rattle.md5.specs.Md5.{Holds, md5};
ghost use Rattle.rad_packet.specs.Hmac.{hmac_md5, key_block, xored_with, zero_filled};

use md5::{Digest, Md5};

/// The octets of a block of MD5.
const BLOCK: usize = 64;

/// What each octet of the key is xor'd with in the inner digest.
const INNER_PAD: u8 = 0x36;

/// What each octet of the key is xor'd with in the outer digest.
const OUTER_PAD: u8 = 0x5c;

/// A key as a block of 64 octets: one that is longer is hashed first.
pub(crate) fn key_block(key: &[u8]) -> [u8; 64]
    ensures { result ≡ key_block key.now }
{
    if key.len() > BLOCK {
        zero_filled(&Md5::digest(key))
    } else {
        zero_filled(key)
    }
}

/// Octets with zero octets behind them up to a block.
fn zero_filled(octets: &[u8]) -> [u8; 64]
    requires { length octets.now ≤ 64 }
    ensures { result ≡ zero_filled octets.now }
{
    let mut block = [0; BLOCK];
    for i in 0..octets.len() {
        block[i] = octets[i];
    }
    block
}

/// The octets of a block, each of them xor one octet.
fn xored_with(block: &[u8; 64], pad: u8) -> [u8; 64]
    ensures { result ≡ xored_with pad block.now }
{
    let mut octets = *block;
    for i in 0..BLOCK {
        octets[i] ^= pad;
    }
    octets
}

/// The inner digest under a key's block, before any text.
pub(crate) fn inner_digest(key: &[u8; 64]) -> Md5
    ensures { Holds result (xored_with 0x36 key.now) }
{
    let mut hasher = Md5::new();
    hasher.update(&xored_with(key, INNER_PAD));
    hasher
}

/// The HMAC of the text that the inner digest was given, under the same key's block.
pub(crate) fn outer_digest(key: &[u8; 64], inner: Md5) -> [u8; 16]
    ensures { (text : List ℕ) → Holds inner (xored_with 0x36 key.now ++ text)
        → result ≡ md5 (xored_with 0x5c key.now ++ md5 (xored_with 0x36 key.now ++ text)) }
{
    let digest = inner.finalize();
    let mut outer = Md5::new();
    outer.update(&xored_with(key, OUTER_PAD));
    outer.update(&digest);
    outer.finalize()
}
