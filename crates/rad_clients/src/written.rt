//! Networks as they are written.

ghost use Rattle.std.specs.Prelude.{◌≡◌, ◌≤◌, ◌<◌, ◌==◌, ℕ, length, IfSome};
ghost use Rattle.std.specs.List.{position};
ghost use Rattle.rad_clients.specs.Written.{bits_of, whole_network, network_with, network_of};

use rad_text::{address_of, number_of};

/// The most digits of a number.
const MOST_DIGITS: usize = 10;

/// A network: an address, and how many of its first bits count, 0 to 32.
#[derive(Clone, Copy, Debug, PartialEq, Eq)]
pub struct Network {
    pub addr: u32,
    pub bits: u8,
}

/// The length of a prefix: 1 to 10 decimal digits, 32 at most.
fn bits_of(text: &[u8]) -> Option<u8>
    ensures exact { result ≡ bits_of text.now }
    ensures fits { IfSome result (λ bits. bits ≤ 32) }
{
    if text.len() > MOST_DIGITS {
        return None;
    }
    let bits = number_of(10, text)?;
    if bits <= 32 { Some(bits as u8) } else { None }
}

/// The network of an address all of whose bits count.
fn whole_network(text: &[u8]) -> Option<Network>
    ensures exact { result ≡ whole_network text.now }
    ensures fits { IfSome result (λ network. network.bits ≤ 32) }
{
    let addr = address_of(text)?;
    Some(Network { addr, bits: 32 })
}

/// The network of an address and of what stands behind its slash.
fn network_with(front: &[u8], behind: &[u8]) -> Option<Network>
    ensures exact { result ≡ network_with front.now behind.now }
    ensures fits { IfSome result (λ network. network.bits ≤ 32) }
{
    let addr = address_of(front)?;
    let bits = bits_of(behind)?;
    Some(Network { addr, bits })
}

/// The place of the first slash.
fn slash_at(text: &[u8]) -> Option<usize>
    ensures exact { result ≡ position (λ (c : ℕ). c == 47) text.now }
    ensures within { IfSome result (λ place. place < length text.now) }
{
    text.iter().position(|octet| *octet == b'/')
}

/// The network that a text is: `a.b.c.d`, all of whose bits count, or `a.b.c.d/bits`.
#[tactic(auto, unfolding(crate::specs::Written::network_of))]
pub fn network_of(text: &[u8]) -> Option<Network>
    ensures exact { result ≡ network_of text.now }
    ensures fits { IfSome result (λ network. network.bits ≤ 32) }
{
    match slash_at(text) {
        None => whole_network(text),
        Some(slash) => {
            let (front, _) = text.split_at(slash);
            let (_, behind) = text.split_at(slash + 1);
            network_with(front, behind)
        }
    }
}
