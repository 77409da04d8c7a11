//! Wires over UDP.

use rad_edge::UdpWire;
use rad_outside::{Got, Peer, Wire};
use std::io;
use std::net::Net;
use std::test::Fail;
use std::time::Instant;

/// 127.0.0.1, at a port that the system picks.
const ANY: Peer = Peer {
    addr: 0x7f00_0001,
    port: 0,
};

/// Whether this is the wire's next answer, with these octets.
fn answers<W: Wire>(wire: &mut W, want: Got, octets: &[u8]) -> bool {
    let mut buffer = [0u8; 4096];
    wire.recv(&mut buffer) == want && buffer.starts_with(octets)
}

/// Where a wire at 127.0.0.1 is bound.
fn place_of<R: Net + Eprint + Clone>(wire: &UdpWire<R>) -> io::Result<Peer> {
    Ok(Peer {
        addr: ANY.addr,
        port: wire.port()?,
    })
}

#[test]
fn datagrams_go_from_wire_to_wire(rt: HostRuntime) -> Result<(), Fail> {
    let server = UdpWire::bind(&rt, ANY)?;
    let mut client = UdpWire::bind(&rt, ANY)?;
    let mut second = server.share()?;
    let at = place_of(&server)?;
    let from = place_of(&client)?;
    let long = vec![in rt.alloc(); 7u8; 5000]?;
    for (octets, count) in [
        (b"request".as_slice(), 7),
        (b"", 0),
        (long.as_slice(), 4096),
    ] {
        client.send(at, octets)?;
        assert!(rt; answers(&mut second, Got::Datagram(count, from), b""));
    }
    assert!(rt; client.send(ANY, b"to no port").is_err());
    Ok(())
}

#[test]
fn a_wire_is_quiet_after_a_second(rt: HostRuntime) -> Result<(), Fail> {
    let mut wire = UdpWire::bind(&rt, ANY)?;
    let at = place_of(&wire)?;
    wire.send(at, b"request")?;
    assert!(rt; answers(&mut wire, Got::Datagram(7, at), b"request"));
    let start = Instant::now(&rt)?;
    assert!(rt; answers(&mut wire, Got::Quiet, b""));
    let waited = start.elapsed(&rt)?.as_millis();
    assert!(rt; 900 < waited && waited < 5000);
    Ok(())
}
