//! The program `radwho`: it hands the host's files and standard output to the top call.
//! It has no model of its own: the words are the process's arguments, and the exit status is the top call's.
//! Nothing stands above it.
#![tactic(auto)]

use rad_edge::{HostFiles, HostSink, NoMemory};
use radwho::radwho;
use std::alloc::Global;
use std::env;
use std::process::ExitCode;
use std::rt::Env;

/// Want of memory before the top call has begun.
const NO_MEMORY: u8 = 8;

/// The arguments, or none where one of them is no text.
fn words_of<R: Env + Alloc<A = Global>>(rt: &R) -> Result<Vec<String>, NoMemory> {
    let mut words = Vec::new(rt.alloc());
    if let Ok(arguments) = env::args(rt) {
        for argument in arguments {
            words.push(argument)?;
        }
    }
    Ok(words)
}

fn main(rt: HostRuntime) -> ExitCode {
    let Ok(words) = words_of(&rt) else {
        return ExitCode::from(NO_MEMORY);
    };
    let mut files = HostFiles::new(&rt);
    let mut out = HostSink::new(&rt);
    let status = radwho(rt.alloc(), words.as_slice(), &mut files, &mut out);
    ExitCode::from(status)
}
