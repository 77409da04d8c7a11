//! Runs of the client over devices in memory.

use crate::plan::Plan;
use crate::script::plan_of;
use crate::transcript::push_run;
use rad_edge::{ListLuck, MemFiles, MemSink, MemWire};
use rad_outside::NoMemory;
use radclient::radclient;
use shared_cases::{Case, Subject};
use std::alloc::Global;

/// The client's top call.
#[derive(Drop)]
pub struct Client;

impl Subject for Client {
    fn answer(&mut self, alloc: Global, case: &Case) -> Result<Vec<u8>, NoMemory> {
        let plan = plan_of(alloc, case)?;
        if !plan.is_read {
            return Ok(Vec::from_slice(alloc, b"a field is none that a case can have\n")?);
        }
        run(alloc, plan)
    }
}

/// What a run does.
fn run(alloc: Global, plan: Plan) -> Result<Vec<u8>, NoMemory> {
    let Plan {
        words,
        files,
        script,
        from: _,
        luck,
        failing_reads,
        failing_receives,
        failing_sends,
        failing_writes,
        is_read: _,
    } = plan;
    let mut maps = Vec::new(alloc);
    maps.push(files)?;
    let mut files = MemFiles::new(maps, failing_reads);
    let mut wire = MemWire::new(alloc, script, failing_receives, failing_sends);
    let mut luck = ListLuck::new(luck);
    let mut out = MemSink::new(alloc, failing_writes);
    let status = radclient(
        alloc,
        words.as_slice(),
        &mut files,
        &mut wire,
        &mut luck,
        &mut out,
    );
    let mut did = Vec::new(alloc);
    push_run(alloc, &mut did, status, &out, &wire)?;
    Ok(did)
}
