ghost use Rattle.std.specs.Prelude.{◌≡◌};
ghost use Rattle.std.specs.Net.Addr.{IsIpv4OfBits};
ghost use Rattle.std.specs.Net.Socket.{v4_ip, v4_port};
ghost use Rattle.rad_edge.specs.Address.{peer_at};

use rad_outside::Peer;
use std::net::{Ipv4Addr, SocketAddr, SocketAddrV4};

/// The address of a peer.
pub fn address_of(peer: Peer) -> SocketAddrV4
    ensures ip { IsIpv4OfBits (v4_ip result) peer.addr }
    ensures port { v4_port result ≡ peer.port }
{
    SocketAddrV4::new(Ipv4Addr::from_bits(peer.addr), peer.port)
}

/// The peer at an address, where that is one of IPv4.
pub fn peer_of(address: SocketAddr) -> Option<Peer>
    ensures { result ≡ peer_at address }
{
    match address {
        SocketAddr::V4(address) => Some(Peer {
            addr: address.ip().to_bits(),
            port: address.port(),
        }),
        SocketAddr::V6(_) => None,
    }
}
