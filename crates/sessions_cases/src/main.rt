//! Logs of sessions and what they say, and scripts of changes and questions. The program reads them from files, folds each
//! log and obeys each script by the public calls, and compares the answers with what the files say. There is no model.
//! Nothing stands above it.
#![tactic(auto)]

mod logs;
mod many;
mod scripts;
mod stage;
mod word;

use logs::Logs;
use scripts::Scripts;
use shared_cases::{Form, Tally};
use std::process::ExitCode;

/// Tries all logs and scripts, and those whose expectations are wrong on purpose.
fn main(rt: HostRuntime) -> ExitCode {
    let mut logs = Logs;
    let mut tally = Tally::new(rt.alloc());
    tally.judge_file(rt, &mut logs, Form::Rows, "logs.cases");
    let mut scripts = Scripts;
    tally.judge_file(rt, &mut scripts, Form::Rows, "scripts.cases");
    let mut wrong = Tally::new(rt.alloc());
    wrong.judge_file(rt, &mut logs, Form::Rows, "wrong.cases");
    wrong.judge_file(rt, &mut scripts, Form::Rows, "wrong-scripts.cases");
    tally.finish(&rt, &wrong)
}
