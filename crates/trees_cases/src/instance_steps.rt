//! Instances, added and found one after another.

use crate::faults::add_fault_text;
use crate::given::methods_of;
use rad_outside::NoMemory;
use shared_cases::{Case, Subject, decimal, push_number, words};
use std::alloc::Global;
use unlang_tree::Instances;

/// Steps, in order: `+NAME` adds an instance, `*COUNT` adds so many, named by their numbers, `?NAME` looks a name up. What
/// each gives stands behind the step before it: a number, a fault, or `none`; after `*COUNT` how many there are.
#[derive(Drop)]
pub struct InstanceCases;

impl Subject for InstanceCases {
    fn answer(&mut self, alloc: Global, case: &Case) -> Result<Vec<u8>, NoMemory> {
        let mut instances = Instances::new(alloc);
        let mut text = Vec::new(alloc);
        for step in words(alloc, case.cell(0))? {
            if !text.is_empty() {
                text.extend_from_slice(b", ")?;
            }
            let given = step_text(alloc, &mut instances, step)?;
            text.extend_from_slice(given.as_slice())?;
        }
        Ok(text)
    }
}

/// What one step gives.
fn step_text(alloc: Global, instances: &mut Instances, step: &[u8]) -> Result<Vec<u8>, NoMemory> {
    match step.split_first() {
        Some((b'+', name)) => added_text(alloc, instances, name),
        Some((b'*', count)) => {
            for number in 0..decimal(count) {
                let mut name = Vec::new(alloc);
                push_number(alloc, &mut name, number)?;
                let _given = added_text(alloc, instances, name.as_slice())?;
            }
            number_text(alloc, instances.len())
        }
        Some((b'?', name)) => match instances.find(name) {
            Some(number) => number_text(alloc, number),
            None => Ok(Vec::from_slice(alloc, b"none")?),
        },
        _ => Ok(Vec::from_slice(alloc, b"no step")?),
    }
}

fn added_text(alloc: Global, instances: &mut Instances, name: &[u8]) -> Result<Vec<u8>, NoMemory> {
    match instances.add(name, methods_of(&[])) {
        Ok(number) => number_text(alloc, number),
        Err(fault) => add_fault_text(alloc, fault),
    }
}

fn number_text(alloc: Global, number: u32) -> Result<Vec<u8>, NoMemory> {
    let mut text = Vec::new(alloc);
    push_number(alloc, &mut text, u64::from(number))?;
    Ok(text)
}
