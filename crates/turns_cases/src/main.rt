//! Scripts of seats at a desk over a counter: which names seats get, which turn a turn is, and when the desk is closed.
//! The program reads scripts from a file, obeys them by the desk's calls, and compares the answers with what the file
//! says. There is no model; a struct keeps what the desk's calls ask. Nothing stands above it.
#![tactic(auto)]

mod counter;
mod office;
mod scripts;

use scripts::Scripts;
use shared_cases::{Form, Tally};
use std::process::ExitCode;

/// Tries all scripts, and those whose expectations are wrong on purpose.
fn main(rt: HostRuntime) -> ExitCode {
    let mut scripts = Scripts { rt: &rt };
    let mut tally = Tally::new(rt.alloc());
    tally.judge_file(rt, &mut scripts, Form::Rows, "turns.cases");
    let mut wrong = Tally::new(rt.alloc());
    wrong.judge_file(rt, &mut scripts, Form::Rows, "wrong.cases");
    tally.finish(&rt, &wrong)
}
