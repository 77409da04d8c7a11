//! Worked examples of modules: what `pap`, `chap` and `realm` answer for a section of a request, and what they leave of its
//! lists. The examples are files, in which a case can be added without a proof.
//! The program has no model and no contracts but those of a world without devices: it compares and counts. Nothing stands
//! above it.
#![tactic(auto)]

mod given;
mod modules;
mod nowhere;
mod runs;

use crate::modules::ModuleCases;
use shared_cases::{Form, Tally};
use std::process::ExitCode;

/// Tries the cases of each file, and those that are meant to differ.
fn main(rt: HostRuntime) -> ExitCode {
    let mut tally = Tally::new(rt.alloc());
    tally.judge_file(rt, &mut ModuleCases, Form::Rows, "pap.cases");
    tally.judge_file(rt, &mut ModuleCases, Form::Rows, "chap.cases");
    tally.judge_file(rt, &mut ModuleCases, Form::Rows, "realm.cases");
    let mut wrong = Tally::new(rt.alloc());
    wrong.judge_file(rt, &mut ModuleCases, Form::Rows, "wrong.cases");
    tally.finish(&rt, &wrong)
}
