//! The crew that binds listeners to sockets of UDP.

use rad_edge::{UdpCrew, UdpKit};
use rad_outside::{Crew, KitFault, Listen, ListenKind, Luck, NoMemory, Octets, Peer};
use std::alloc::Global;
use std::net::Net;
use std::test::Fail;

/// A listener of the server `default` at 127.0.0.1.
fn listen_of(alloc: Global, kind: ListenKind, port: u16) -> Result<Listen, NoMemory> {
    Ok(Listen {
        server: Octets::of(alloc, b"default")?,
        kind,
        at: Peer {
            addr: 0x7f00_0001,
            port,
        },
    })
}

/// A kit may be handed to another thread: else there is no such call.
fn is_sent<T: Send>(_value: &T) {}

/// The port of a kit's wire, and whether the kit has a control wire.
fn port_of<R: Net + Eprint + Clone>(kit: &UdpKit<R>) -> Result<(u16, bool), KitFault> {
    let port = kit.wire.port().map_err(|_| KitFault::Failed)?;
    Ok((port, kit.control.is_some()))
}

#[test]
fn workers_of_one_listener_share_its_socket(rt: HostRuntime) -> Result<(), Fail> {
    let alloc: Global = rt.alloc();
    let auth = listen_of(alloc, ListenKind::Auth, 0)?;
    let control = listen_of(alloc, ListenKind::Control, 0)?;
    let mut crew = UdpCrew::new(alloc, &rt);
    let mut first = crew.kit(alloc, 0, &auth, Some(&control))?;
    let mut second = crew.kit(alloc, 1, &auth, None)?;
    is_sent(&first);
    let (port, with_control) = port_of(&first)?;
    assert!(rt; with_control);
    assert!(rt; port_of(&second)? == (port, false));
    assert!(rt; first.wire.address() == auth.at);
    assert!(rt; first.luck.word() != second.luck.word());
    let acct = listen_of(alloc, ListenKind::Acct, port)?;
    assert!(rt; matches!(crew.kit(alloc, 0, &acct, None), Err(KitFault::Failed)));
    Ok(())
}
