//! Networks: the first bits of an address.

ghost use Rattle.std.specs.Prelude.{◌≡◌, ◌≤◌, ◌<◌, ◌^◌};
ghost use Rattle.rad_clients.specs.Networks.{network, network_key, is_of};

use rad_packet::Client;

/// The first bits of an address, as a number.
pub(crate) fn network(bits: u8, addr: u32) -> u64
    requires { bits ≤ 32 }
    ensures value { result ≡ network bits addr }
    ensures range { result < 2 ^ 32 }
{
    u64::from(addr) >> (32 - bits)
}

/// The key of a network.
pub(crate) fn network_key(bits: u8, addr: u32) -> u64
    requires { bits ≤ 32 }
    ensures { result ≡ network_key bits addr }
{
    u64::from(bits) * 4_294_967_296 + network(bits, addr)
}

/// Whether a client is the network of so many bits that has the address.
pub(crate) fn is_of(bits: u8, addr: u32, client: &Client) -> bool
    requires { bits ≤ 32 }
    ensures { result ≡ is_of bits addr client.now }
{
    client.bits == bits && network(bits, client.addr) == network(bits, addr)
}
