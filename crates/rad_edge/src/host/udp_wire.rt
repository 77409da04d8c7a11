ghost use Rattle.std.specs.Prelude.{◌≡◌, ◌≢◌, None, false, IfOk, IsErr, length};
ghost use Rattle.rad_outside.specs.Telling.{Counts};
ghost use Rattle.rad_outside.specs.Wire.{FitsBuffer, IsEnding, failures_after};
ghost use Rattle.rad_edge.specs.Memory.{faults_after};
ghost use Rattle.rad_edge.specs.Host.{IsBoundTo, faults_after_ask};

use super::address::{address_of, peer_of};
use super::telling::tell_at;
use rad_outside::{Failed, Got, Peer, Wire};
use std::io;
use std::io::ErrorKind;
use std::net::{Net, UdpSocket};
use std::time::Duration;

/// How long an ask waits for a datagram, in seconds.
const WAIT: u64 = 1;

/// A socket of UDP over IPv4, which never ends, and the address that it was asked for. An ask that waited for a second
/// answers that nothing came. Of asks or sends that fail one after another the first is told on standard error.
#[derive(Drop)]
pub struct UdpWire<R> {
    rt: R,
    at: Peer,
    socket: UdpSocket,
    faults: u64,
    failures_in_a_row: u64,
    sends_fail: bool,
}

impl<R: Net + Eprint + Clone> UdpWire<R> {
    /// A wire whose socket is bound to this address. What the host refuses is told on standard error.
    pub fn bind(rt: R, at: Peer) -> io::Result<UdpWire<R>>
        ensures { IfOk result (IsBoundTo at) }
    {
        match bound_socket(&rt, at) {
            Ok(socket) => Ok(fresh(rt, at, socket)),
            Err(error) => {
                tell_at(&rt, "bind", at, &error);
                Err(error)
            }
        }
    }

    /// Another wire over the same socket, with counts of its own. A datagram comes to one of the two.
    pub fn share(&self) -> io::Result<UdpWire<R>>
        ensures { IfOk result (IsBoundTo self.now.at) }
    {
        let socket = self.socket.try_clone()?;
        Ok(fresh(self.rt.clone()?, self.at, socket))
    }

    /// The address that was asked for.
    pub fn address(&self) -> Peer
        ensures { result ≡ self.now.at }
    {
        self.at
    }

    /// The port that the socket is bound to.
    pub fn port(&self) -> io::Result<u16> {
        Ok(self.socket.local_addr()?.port())
    }
}

impl<R: Eprint> Wire for UdpWire<R> {
    ghost told = { λ _. None };

    ghost faults = { λ w. w.faults };

    ghost failures_in_a_row = { λ w. w.failures_in_a_row };

    ghost has_ended = { λ _. false };

    fn recv(&mut self, buffer: &mut [u8; 4096]) -> Got
        ensures bound { FitsBuffer result }
        ensures buffer { length buffer.new ≡ 4096 }
        ensures faults { Counts self.old.faults self.new.faults (result ≡ Got.Failed) }
        ensures row { self.new.failures_in_a_row ≡ failures_after result self.old.failures_in_a_row }
        ensures end { IsEnding false false result }
        ensures exact { self.new.faults ≡ faults_after_ask result self.old.faults }
        ensures address { self.new.at ≡ self.old.at }
    {
        let got = receive(self, buffer);
        if got == Got::Failed {
            self.faults = self.faults.saturating_add(1);
            self.failures_in_a_row = self.failures_in_a_row.saturating_add(1);
        } else {
            self.failures_in_a_row = 0;
        }
        got
    }

    fn send(&mut self, to: Peer, bytes: &[u8]) -> Result<(), Failed>
        ensures faults { Counts self.old.faults self.new.faults (IsErr result) }
        ensures row { self.new.failures_in_a_row ≡ self.old.failures_in_a_row }
        ensures exact { self.new.faults ≡ faults_after result self.old.faults }
        ensures address { self.new.at ≡ self.old.at }
    {
        let sent = hand_over(self, to, bytes);
        self.sends_fail = sent.is_err();
        if sent.is_err() {
            self.faults = self.faults.saturating_add(1);
        }
        sent
    }
}

/// A socket of this address, whose asks wait no longer than they should.
fn bound_socket<R: Net>(net: &R, at: Peer) -> io::Result<UdpSocket> {
    let socket = UdpSocket::bind(net, address_of(at))?;
    socket.set_read_timeout(Some(Duration::from_secs(WAIT)))?;
    Ok(socket)
}

/// A wire over a socket, with no fault yet.
fn fresh<R>(rt: R, at: Peer, socket: UdpSocket) -> UdpWire<R>
    ensures { IsBoundTo at result }
{
    UdpWire {
        rt,
        at,
        socket,
        faults: 0,
        failures_in_a_row: 0,
        sends_fail: false,
    }
}

/// Waits for a datagram. One whose source is no address of IPv4 is a failure.
fn receive<R: Eprint>(wire: &UdpWire<R>, buffer: &mut [u8; 4096]) -> Got
    ensures bound { FitsBuffer result }
    ensures buffer { length buffer.new ≡ 4096 }
    ensures answers { result ≢ Got.Ended }
{
    match wire.socket.recv_from(buffer) {
        Ok((count, address)) => match peer_of(address) {
            Some(from) => Got::Datagram(count, from),
            None => Got::Failed,
        },
        Err(error) => match error.kind() {
            ErrorKind::WouldBlock | ErrorKind::TimedOut => Got::Quiet,
            _ => {
                if wire.failures_in_a_row == 0 {
                    tell_at(&wire.rt, "receive at", wire.at, &error);
                }
                Got::Failed
            }
        },
    }
}

/// Hands a datagram to the socket. One that is taken in part is a failure.
fn hand_over<R: Eprint>(wire: &UdpWire<R>, to: Peer, bytes: &[u8]) -> Result<(), Failed> {
    match wire.socket.send_to(bytes, address_of(to)) {
        Ok(count) if count == bytes.len() => Ok(()),
        Ok(_) => Err(Failed),
        Err(error) => {
            if !wire.sends_fail {
                tell_at(&wire.rt, "send to", to, &error);
            }
            Err(Failed)
        }
    }
}
