//! Worked examples of policies: the source trees of configurations, or their first faults, and the instances that calls
//! name, each as the reader gives it and as a file of cases says.
//! The program has no model and no contracts: it compares and counts. Nothing stands above it.
#![tactic(auto)]

mod configurations;
mod faults;
mod given;
mod instance_steps;
mod trees;
mod updates;

use crate::configurations::TreeCases;
use crate::instance_steps::InstanceCases;
use shared_cases::{Form, Tally};
use std::process::ExitCode;

/// Tries the cases of each file, and those that are meant to differ.
fn main(rt: HostRuntime) -> ExitCode {
    let mut tally = Tally::new(rt.alloc());
    tally.judge_file(rt, &mut InstanceCases, Form::Rows, "instances.cases");
    tally.judge_file(rt, &mut TreeCases, Form::Blocks, "trees.cases");
    tally.judge_file(rt, &mut TreeCases, Form::Blocks, "faults.cases");
    tally.judge_file(rt, &mut TreeCases, Form::Blocks, "updates.cases");
    tally.judge_file(rt, &mut TreeCases, Form::Blocks, "policies.cases");
    tally.judge_file(rt, &mut TreeCases, Form::Blocks, "ifs.cases");
    let mut wrong = Tally::new(rt.alloc());
    wrong.judge_file(rt, &mut InstanceCases, Form::Rows, "wrong_instances.cases");
    wrong.judge_file(rt, &mut TreeCases, Form::Blocks, "wrong_trees.cases");
    tally.finish(&rt, &wrong)
}
