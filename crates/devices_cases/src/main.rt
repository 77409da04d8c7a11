//! Worked examples of the outside in memory: files, wires, shelves, sinks, clocks, sources of random words and crews,
//! each as `rad_edge` answers a list of calls and as a file of cases says.
//! The program has no model: it makes calls, compares and counts. Nothing stands above it.
#![tactic(auto)]

mod answers;
mod crews;
mod devices;
mod files;
mod number_lists;
mod shelves;
mod sinks;
mod wires;

use crate::devices::DeviceCases;
use shared_cases::{Form, Tally};
use std::process::ExitCode;

/// The files of cases, one for each kind of device.
const FILES: [&str; 6] = [
    "files.cases",
    "wires.cases",
    "shelves.cases",
    "sinks.cases",
    "number_lists.cases",
    "crews.cases",
];

/// Tries the cases of each file, and those that are meant to differ.
fn main(rt: HostRuntime) -> ExitCode {
    let mut tally = Tally::new(rt.alloc());
    for file in FILES {
        tally.judge_file(rt, &mut DeviceCases, Form::Blocks, file);
    }
    let mut wrong = Tally::new(rt.alloc());
    wrong.judge_file(rt, &mut DeviceCases, Form::Blocks, "wrong.cases");
    tally.finish(&rt, &wrong)
}
