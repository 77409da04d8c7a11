//! The program `radiusd`: it makes the devices of the host and hands them to the server's top call.
//! It has no model of its own: the words are the process's arguments, and the exit status is the top call's.
//! Nothing stands above it.
#![tactic(auto)]

use rad_edge::{HostFiles, HostSink, MemShelf, UdpCrew};
use rad_outside::{NoMemory, Octets};
use radiusd::{Hub, radiusd};
use std::alloc::Global;
use std::env;
use std::process::ExitCode;
use std::rt::Env;

/// Want of memory before the server has begun.
const NO_MEMORY: u8 = 8;

/// A hub whose session log is kept in memory, under the name that the site's log has where none is set.
fn make_hub(alloc: Global) -> Result<Hub<MemShelf>, NoMemory> {
    let path = Octets::of(alloc, "radutmp.log".as_bytes())?;
    Hub::new(alloc, MemShelf::new(alloc, Vec::new(alloc)), path)
}

/// The arguments, or none where one of them is no text.
fn words_of<R: Env + Alloc<A = Global>>(rt: &R) -> Result<Vec<String>, NoMemory> {
    let mut words = Vec::new(rt.alloc());
    if let Ok(arguments) = env::args(rt) {
        for argument in arguments {
            words.push(argument)?;
        }
    }
    Ok(words)
}

fn main(rt: HostRuntime) -> ExitCode {
    let alloc = rt.alloc();
    let Ok(words) = words_of(&rt) else {
        return ExitCode::from(NO_MEMORY);
    };
    let Ok(mut hub) = make_hub(alloc) else {
        return ExitCode::from(NO_MEMORY);
    };
    let mut kits = Vec::new(alloc);
    let status = radiusd(
        &rt,
        alloc,
        words.as_slice(),
        &mut HostFiles::new(&rt),
        &mut UdpCrew::new(alloc, &rt),
        &mut kits,
        &mut hub,
        &mut HostSink::new(&rt),
    );
    ExitCode::from(status)
}
