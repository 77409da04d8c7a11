//! The program `radclient`: it makes the devices of the host and hands them to the client's top call.
//! It has no model of its own: the words are the process's arguments, and the exit status is the top call's.
//! Nothing stands above it.
#![tactic(auto)]

use rad_edge::{HostClock, HostFiles, HostSink, PcgLuck, UdpWire};
use rad_outside::{Clock, NoMemory, Peer};
use radclient::radclient;
use std::alloc::Global;
use std::env;
use std::process::ExitCode;
use std::rt::Env;

/// No socket can be had before the client has begun.
const SOCKET_FAULT: u8 = 4;

/// Want of memory before the client has begun.
const NO_MEMORY: u8 = 8;

/// Any address of the host, and any port that is free.
const ANYWHERE: Peer = Peer { addr: 0, port: 0 };

/// The arguments, or none where one of them is no text.
fn words_of<R: Env + Alloc<A = Global>>(rt: &R) -> Result<Vec<String>, NoMemory> {
    let mut words = Vec::new(rt.alloc());
    if let Ok(arguments) = env::args(rt) {
        for argument in arguments {
            words.push(argument)?;
        }
    }
    Ok(words)
}

fn main(rt: HostRuntime) -> ExitCode {
    let Ok(words) = words_of(&rt) else {
        return ExitCode::from(NO_MEMORY);
    };
    let Ok(mut wire) = UdpWire::bind(&rt, ANYWHERE) else {
        return ExitCode::from(SOCKET_FAULT);
    };
    let mut luck = PcgLuck::new(HostClock::new(&rt).now());
    let status = radclient(
        rt.alloc(),
        words.as_slice(),
        &mut HostFiles::new(&rt),
        &mut wire,
        &mut luck,
        &mut HostSink::new(&rt),
    );
    ExitCode::from(status)
}
