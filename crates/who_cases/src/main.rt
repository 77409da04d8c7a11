//! Worked examples of what stands below the program `radwho`, and of its runs: dates of moments, command lines and numbers
//! in them, and logs with what is printed of them, each as the public call gives it and as a file of cases says.
//! The program has no model and no contracts: it compares and counts. Nothing stands above it.
#![tactic(auto)]

mod command_lines;
mod dates;
mod runs;

use command_lines::{CommandLines, Numbers};
use dates::Dates;
use runs::Runs;
use shared_cases::{Form, Tally};
use std::process::ExitCode;

/// Tries all cases, and those whose expectations are wrong on purpose.
fn main(rt: HostRuntime) -> ExitCode {
    let mut tally = Tally::new(rt.alloc());
    tally.judge_file(rt, &mut Dates, Form::Rows, "dates.cases");
    tally.judge_file(rt, &mut CommandLines, Form::Rows, "command_lines.cases");
    tally.judge_file(rt, &mut Numbers, Form::Rows, "numbers.cases");
    tally.judge_file(rt, &mut Runs, Form::Blocks, "runs.cases");
    let mut wrong = Tally::new(rt.alloc());
    wrong.judge_file(rt, &mut Dates, Form::Rows, "wrong_dates.cases");
    wrong.judge_file(rt, &mut CommandLines, Form::Rows, "wrong_lines.cases");
    wrong.judge_file(rt, &mut Numbers, Form::Rows, "wrong_numbers.cases");
    wrong.judge_file(rt, &mut Runs, Form::Blocks, "wrong_runs.cases");
    tally.finish(&rt, &wrong)
}
