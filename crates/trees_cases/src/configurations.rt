//! Configurations, read as policies.

use crate::faults::{add_fault_text, conf_fault_text, fault_text};
use crate::given::{files_of, instances_of};
use crate::trees::policies_text;
use rad_conf::{Conf, ConfFault, read_conf};
use rad_dict::Dict;
use rad_outside::NoMemory;
use shared_cases::{Case, Subject};
use std::alloc::Global;
use unlang_tree::{Instances, Tree};

/// A configuration and its instances, for the trees of its servers or the first fault, under the dictionary that needs
/// no file.
#[derive(Drop)]
pub struct TreeCases;

impl Subject for TreeCases {
    fn answer(&mut self, alloc: Global, case: &Case) -> Result<Vec<u8>, NoMemory> {
        match instances_of(alloc, case) {
            Ok(instances) => read_text(alloc, case, &instances),
            Err(fault) => add_fault_text(alloc, fault),
        }
    }
}

/// What reading the configuration of a case gives.
fn read_text(alloc: Global, case: &Case, instances: &Instances) -> Result<Vec<u8>, NoMemory> {
    match conf_of(alloc, case)? {
        Ok(conf) => tree_text(alloc, &conf, instances),
        Err(fault) => conf_fault_text(alloc, &fault),
    }
}

/// The configuration of a case, or the fault of its text.
fn conf_of(alloc: Global, case: &Case) -> Result<Result<Conf, ConfFault>, NoMemory> {
    let mut files = files_of(alloc, case)?;
    Ok(read_conf(alloc, &mut files, "etc", "radiusd.conf"))
}

/// What reading the policies of a configuration gives.
fn tree_text(alloc: Global, conf: &Conf, instances: &Instances) -> Result<Vec<u8>, NoMemory> {
    let dict = Dict::base(alloc)?;
    match Tree::of(alloc, conf, &dict, instances) {
        Ok(policies) => policies_text(alloc, &policies, &dict),
        Err(fault) => fault_text(alloc, &fault),
    }
}
