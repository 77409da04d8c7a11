//! The server over real UDP, on one thread.

ghost use Rattle.std.specs.Prelude.{None};

use rad_edge::{ListClock, ListLuck, MemCrew, MemFiles, MemShelf, MemSink, OpenGate, UdpWire};
use rad_outside::{Failed, Got, Kit, NoMemory, Octets, Peer, Wire};
use radiusd::{Hub, radiusd};
use std::alloc::Global;
use std::net::{Net, UdpSocket};
use std::sync::Wait;
use std::test::Fail;
use std::time::Duration;

/// A wire that has ended after its first quiet while.
#[derive(Drop)]
struct UntilQuiet<W> {
    wire: W,
    is_over: bool,
    faults: u64,
    failures_in_a_row: u64,
}

impl<W: Wire> Wire for UntilQuiet<W> {
    ghost told = { λ _. None };

    ghost faults = { λ w. w.faults };

    ghost failures_in_a_row = { λ w. w.failures_in_a_row };

    ghost has_ended = { λ w. w.is_over };

    fn recv(&mut self, buffer: &mut [u8; 4096]) -> Got {
        if self.is_over {
            self.failures_in_a_row = 0;
            return Got::Ended;
        }
        match self.wire.recv(buffer) {
            Got::Datagram(count, from) => {
                self.failures_in_a_row = 0;
                Got::Datagram(count, from)
            }
            Got::Quiet | Got::Ended => {
                self.failures_in_a_row = 0;
                self.is_over = true;
                Got::Quiet
            }
            Got::Failed => {
                self.failures_in_a_row = self.failures_in_a_row.saturating_add(1);
                self.faults = self.faults.saturating_add(1);
                Got::Failed
            }
        }
    }

    fn send(&mut self, to: Peer, bytes: &[u8]) -> Result<(), Failed> {
        match self.wire.send(to, bytes) {
            Ok(()) => Ok(()),
            Err(Failed) => {
                self.faults = self.faults.saturating_add(1);
                Err(Failed)
            }
        }
    }
}

type OneWire<W> = MemCrew<UntilQuiet<W>, MemShelf, ListClock, ListLuck, OpenGate>;

/// A crew that has one wire to hand out, until that wire is quiet.
fn crew_of<W: Wire + Drop>(alloc: Global, wire: W) -> Result<OneWire<W>, NoMemory> {
    let mut crew = MemCrew::new(alloc, Vec::new(alloc));
    crew.add(Kit {
        listener: 0,
        wire: UntilQuiet {
            wire,
            is_over: false,
            faults: 0,
            failures_in_a_row: 0,
        },
        control: None,
        shelf: MemShelf::new(alloc, Vec::new(alloc)),
        clock: ListClock::new(Vec::new(alloc)),
        luck: ListLuck::new(Vec::new(alloc)),
        gate: OpenGate,
    })?;
    Ok(crew)
}

/// The words of a command line.
fn words_of(alloc: Global, words: &[&str]) -> Result<Vec<String>, NoMemory> {
    let mut list = Vec::new(alloc);
    for word in words {
        list.push(String::from_str(alloc, word)?)?;
    }
    Ok(list)
}

/// A site that accepts each request of 127.0.0.1.
const SITE: &[u8] =
    b"client nas {\n\tipaddr = 127.0.0.1\n\tsecret = xyzzy5461\n}\nserver default {\n\tlisten { type = auth }\n\tauthorize {\n\t\tupdate control { Auth-Type := Accept }\n\t\tok\n\t}\n}\n";

/// Files with this text as the configuration of the folder `site`.
fn files_of(alloc: Global, conf: &[u8]) -> Result<MemFiles, NoMemory> {
    let path = Octets::of(alloc, b"site/radiusd.conf")?;
    let mut map = Vec::new(alloc);
    map.push((path, Octets::of(alloc, conf)?))?;
    let mut maps = Vec::new(alloc);
    maps.push(map)?;
    Ok(MemFiles::new(maps, Vec::new(alloc)))
}

/// The request of RFC 2865 section 7.1.
const REQUEST: &[u8] = &[
    0x01, 0x00, 0x00, 0x38, 0x0f, 0x40, 0x3f, 0x94, 0x73, 0x97, 0x80, 0x57, 0xbd, 0x83, 0xd5, 0xcb,
    0x98, 0xf4, 0x22, 0x7a, 0x01, 0x06, 0x6e, 0x65, 0x6d, 0x6f, 0x02, 0x12, 0x0d, 0xbe, 0x70, 0x8d,
    0x93, 0xd4, 0x13, 0xce, 0x31, 0x96, 0xe4, 0x3f, 0x78, 0x2a, 0x0a, 0xee, 0x04, 0x06, 0xc0, 0xa8,
    0x01, 0x10, 0x05, 0x06, 0x00, 0x00, 0x00, 0x03,
];

/// An empty Access-Accept to it, signed by Python's hashlib under the secret `xyzzy5461`.
const ACCEPT: &[u8] = &[
    0x02, 0x00, 0x00, 0x14, 0x9e, 0xf2, 0xe9, 0x7b, 0x4e, 0x94, 0x75, 0x5c, 0x8f, 0x16, 0xb6, 0x39,
    0x4f, 0x6e, 0x05, 0x95,
];

/// The server's exit status over this wire, on the site `SITE`.
fn served<R: Wait, W: Wire + Send + Drop>(rt: &R, alloc: Global, wire: W) -> Result<u8, NoMemory> {
    let mut crew = crew_of(alloc, wire)?;
    served_by(rt, alloc, &mut crew)
}

fn served_by<R: Wait, W: Wire + Send + Drop>(
    rt: &R,
    alloc: Global,
    crew: &mut OneWire<W>,
) -> Result<u8, NoMemory> {
    let words = words_of(alloc, &["radiusd", "-s", "-d", "site"])?;
    with_files(rt, alloc, words.as_slice(), crew)
}

fn with_files<R: Wait, W: Wire + Send + Drop>(
    rt: &R,
    alloc: Global,
    words: &[String],
    crew: &mut OneWire<W>,
) -> Result<u8, NoMemory> {
    let mut files = files_of(alloc, SITE)?;
    with_hub(rt, alloc, words, &mut files, crew)
}

fn with_hub<R: Wait, W: Wire + Send + Drop>(
    rt: &R,
    alloc: Global,
    words: &[String],
    files: &mut MemFiles,
    crew: &mut OneWire<W>,
) -> Result<u8, NoMemory> {
    let path = Octets::of(alloc, "radutmp.log".as_bytes())?;
    let mut hub = Hub::new(alloc, MemShelf::new(alloc, Vec::new(alloc)), path)?;
    let mut kits = Vec::new(alloc);
    let mut out = MemSink::new(alloc, Vec::new(alloc));
    Ok(radiusd(rt, alloc, words, files, crew, &mut kits, &mut hub, &mut out))
}

/// A socket of a client that has sent the request to a port of this machine.
fn asking<R: Net + Alloc<A = Global>>(rt: &R, port: u16) -> Result<UdpSocket, Fail> {
    let client = UdpSocket::bind(rt, "127.0.0.1:0")?;
    client.set_read_timeout(Some(Duration::from_secs(5)))?;
    let server = format!(in rt.alloc(); "127.0.0.1:{port}")?;
    client.send_to(REQUEST, server.as_str())?;
    Ok(client)
}

#[test]
fn a_request_over_udp_is_answered(rt: HostRuntime) -> Result<(), Fail> {
    let at = Peer {
        addr: 0x7f00_0001,
        port: 0,
    };
    let wire = UdpWire::bind(&rt, at)?;
    let client = asking(&rt, wire.port()?)?;
    assert_eq!(rt; served(&rt, rt.alloc(), wire)?, 0);
    let mut buffer = [0u8; 4096];
    let (count, _) = client.recv_from(&mut buffer)?;
    assert_eq!(rt; buffer.get(..count), Some(ACCEPT));
    Ok(())
}
