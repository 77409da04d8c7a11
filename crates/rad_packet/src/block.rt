//! The chain of blocks that hides a User-Password: RFC 2865 section 5.2.

ghost use Rattle.std.specs.Prelude.{◌≡◌, ◌++◌, ◌%◌, length, IfOk};
ghost use Rattle.md5.specs.Md5.{md5};
ghost use Rattle.rad_packet.specs.Hiding.{blocks_of, hidden_blocks, revealed_blocks, xored};

use md5::{Digest, Md5};
use rad_outside::NoMemory;
use std::alloc::Global;

/// The octets of a block.
const BLOCK: usize = 16;

/// The MD5 of the secret and the 16 octets before a block.
pub(crate) fn block_digest(secret: &[u8], before: &[u8]) -> [u8; 16]
    ensures { result ≡ md5 (secret.now ++ before.now) }
{
    let mut hasher = Md5::new();
    hasher.update(secret);
    hasher.update(before);
    hasher.finalize()
}

/// A block of 16 octets xor a digest.
fn xored_block(block: &[u8], digest: &[u8; 16]) -> [u8; 16]
    requires { length block.now ≡ 16 }
    ensures { result ≡ xored block.now digest.now }
{
    let mut octets = [0; 16];
    for i in 0..BLOCK {
        octets[i] = block[i] ^ digest[i];
    }
    octets
}

/// The hidden blocks of octets whose number is a multiple of 16, where the digest of the first is given.
pub(crate) fn hide_blocks(
    alloc: Global,
    padded: &[u8],
    secret: &[u8],
    first: [u8; 16],
) -> Result<Vec<u8>, NoMemory>
    requires { length padded.now % 16 ≡ 0 }
    ensures { IfOk result (λ hidden. hidden.items ≡ hidden_blocks secret.now first (blocks_of padded.now)) }
{
    let mut hidden = Vec::with_capacity(alloc, padded.len())?;
    let mut digest = first;
    let mut rest = padded;
    while !rest.is_empty() {
        let (block, after) = rest.split_at(BLOCK);
        let octets = xored_block(block, &digest);
        hidden.extend_from_slice(&octets)?;
        digest = block_digest(secret, &octets);
        rest = after;
    }
    Ok(hidden)
}

/// What these blocks hide, where the digest of the first is given. Their number of octets is a multiple of 16.
pub(crate) fn reveal_blocks(
    alloc: Global,
    hidden: &[u8],
    secret: &[u8],
    first: [u8; 16],
) -> Result<Vec<u8>, NoMemory>
    requires { length hidden.now % 16 ≡ 0 }
    ensures { IfOk result (λ octets. octets.items ≡ revealed_blocks secret.now first (blocks_of hidden.now)) }
{
    let mut revealed = Vec::with_capacity(alloc, hidden.len())?;
    let mut digest = first;
    let mut rest = hidden;
    while !rest.is_empty() {
        let (block, after) = rest.split_at(BLOCK);
        revealed.extend_from_slice(&xored_block(block, &digest))?;
        digest = block_digest(secret, block);
        rest = after;
    }
    Ok(revealed)
}
