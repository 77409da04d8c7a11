//! A case makes a device of the kind that its field `device` names, and its other fields say what the device holds and
//! which calls are made, in order.

use crate::{crews, files, number_lists, shelves, sinks, wires};
use rad_outside::NoMemory;
use shared_cases::{Case, Subject};
use std::alloc::Global;

/// The content of a device and calls of it, for its answers.
#[derive(Drop)]
pub struct DeviceCases;

impl Subject for DeviceCases {
    fn answer(&mut self, alloc: Global, case: &Case) -> Result<Vec<u8>, NoMemory> {
        match case.text(b"device") {
            b"files" => files::answers(alloc, case),
            b"wire" => wires::answers(alloc, case),
            b"shelf" => shelves::answers(alloc, case),
            b"sink" => sinks::answers(alloc, case),
            b"clock" => number_lists::clock_answers(alloc, case),
            b"luck" => number_lists::luck_answers(alloc, case),
            b"crew" => crews::answers(alloc, case),
            _ => Ok(Vec::from_slice(alloc, b"there is no such device")?),
        }
    }
}
