//! Worked examples of users files and filter files, and of what the module `files` does by them, each as its reader
//! gives it and as a file of cases says. The program has no model and no contracts: it compares and counts. Nothing
//! stands above it.
#![tactic(auto)]

mod matches;
mod requests;
mod runs;
mod users_files;
mod values;

use crate::matches::{MatchCases, MeetCases};
use crate::runs::RunCases;
use crate::users_files::{FilterTextCases, UsersCases, UsersTextCases};
use shared_cases::{Form, Tally};
use std::process::ExitCode;

/// Tries the cases of each file, and those that are meant to differ.
fn main(rt: HostRuntime) -> ExitCode {
    let mut tally = Tally::new(rt.alloc());
    judge(rt, &mut tally);
    let mut wrong = Tally::new(rt.alloc());
    judge_wrong(rt, &mut wrong);
    tally.finish(&rt, &wrong)
}

fn judge(rt: HostRuntime, tally: &mut Tally) {
    tally.judge_file(rt, &mut UsersTextCases, Form::Rows, "users_texts.cases");
    tally.judge_file(rt, &mut UsersCases, Form::Blocks, "users_entries.cases");
    tally.judge_file(rt, &mut RunCases, Form::Blocks, "users_runs.cases");
    tally.judge_file(rt, &mut MatchCases, Form::Blocks, "users_matches.cases");
    let filters = "filter_texts.cases";
    tally.judge_file(rt, &mut FilterTextCases, Form::Rows, filters);
    tally.judge_file(rt, &mut MeetCases, Form::Blocks, "filter_values.cases");
}

fn judge_wrong(rt: HostRuntime, wrong: &mut Tally) {
    let texts = "wrong_users_texts.cases";
    wrong.judge_file(rt, &mut UsersTextCases, Form::Rows, texts);
    let entries = "wrong_users_entries.cases";
    wrong.judge_file(rt, &mut UsersCases, Form::Blocks, entries);
    wrong.judge_file(rt, &mut RunCases, Form::Blocks, "wrong_users_runs.cases");
    let matches = "wrong_users_matches.cases";
    wrong.judge_file(rt, &mut MatchCases, Form::Blocks, matches);
}
