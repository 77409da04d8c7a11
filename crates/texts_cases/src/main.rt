//! Worked examples of the readers of whole files: dictionaries with what they include, and a site's configuration, each
//! as its reader gives it and as a file of cases says. The program has no model and no contracts: it compares and
//! counts. Nothing stands above it.
#![tactic(auto)]

mod base_look_ups;
mod configurations;
mod dictionaries;
mod faults;
mod given_files;
mod questions;
mod trees;
mod turns;

use crate::base_look_ups::BaseCases;
use crate::configurations::{ConfCases, ConfPathCases, ConfTextCases};
use crate::dictionaries::{DictionaryCases, DictionaryLineCases};
use shared_cases::{Form, Tally};
use std::process::ExitCode;

/// Tries the cases of each file, and those that are meant to differ.
fn main(rt: HostRuntime) -> ExitCode {
    let mut tally = Tally::new(rt.alloc());
    judge_dictionaries(rt, &mut tally);
    judge_configurations(rt, &mut tally);
    let mut wrong = Tally::new(rt.alloc());
    judge_wrong_dictionaries(rt, &mut wrong);
    judge_wrong_configurations(rt, &mut wrong);
    tally.finish(&rt, &wrong)
}

/// The files of dictionaries in blocks.
const DICTIONARIES: [&str; 3] = [
    "dictionary_definitions.cases",
    "dictionary_faults.cases",
    "dictionary_includes.cases",
];

fn judge_dictionaries(rt: HostRuntime, tally: &mut Tally) {
    tally.judge_file(rt, &mut BaseCases, Form::Rows, "base_look_ups.cases");
    let lines = "dictionary_lines.cases";
    tally.judge_file(rt, &mut DictionaryLineCases, Form::Rows, lines);
    for file in DICTIONARIES {
        tally.judge_file(rt, &mut DictionaryCases, Form::Blocks, file);
    }
}

fn judge_configurations(rt: HostRuntime, tally: &mut Tally) {
    tally.judge_file(rt, &mut ConfTextCases, Form::Rows, "conf_faults.cases");
    tally.judge_file(rt, &mut ConfTextCases, Form::Rows, "conf_trees.cases");
    tally.judge_file(rt, &mut ConfPathCases, Form::Rows, "conf_paths.cases");
    tally.judge_file(rt, &mut ConfCases, Form::Blocks, "conf_files.cases");
}

fn judge_wrong_dictionaries(rt: HostRuntime, wrong: &mut Tally) {
    wrong.judge_file(rt, &mut BaseCases, Form::Rows, "wrong_look_ups.cases");
    wrong.judge_file(
        rt,
        &mut DictionaryLineCases,
        Form::Rows,
        "wrong_lines.cases",
    );
    let dictionaries = "wrong_dictionaries.cases";
    wrong.judge_file(rt, &mut DictionaryCases, Form::Blocks, dictionaries);
}

fn judge_wrong_configurations(rt: HostRuntime, wrong: &mut Tally) {
    wrong.judge_file(rt, &mut ConfTextCases, Form::Rows, "wrong_conf.cases");
    wrong.judge_file(rt, &mut ConfPathCases, Form::Rows, "wrong_paths.cases");
    wrong.judge_file(rt, &mut ConfCases, Form::Blocks, "wrong_conf_files.cases");
}
