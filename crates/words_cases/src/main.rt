//! A program that tries the calls of the words' crates on worked examples: default actions and tables of names, values
//! that are compared, lists of pairs that are edited, and texts of pairs and values that are read and printed. The
//! examples are files, in which a case can be added without a proof; what differs is said on standard error. The model
//! is none: what the calls promise is proved where they stand, and here it is held against what others say of them.
#![tactic(auto)]

mod comparison;
mod lists;
mod notation;
mod printing;
mod reading;
mod tables;

use crate::comparison::Comparisons;
use crate::lists::{Edits, Steps};
use crate::printing::PrintedTexts;
use crate::reading::{PairTexts, ValueTexts};
use crate::tables::{Columns, NamesAndNumbers};
use shared_cases::{Form, Tally};
use std::process::ExitCode;

/// Tries the cases of each file, and those that are meant to differ.
fn main(rt: HostRuntime) -> ExitCode {
    let mut tally = Tally::new(rt.alloc());
    judge_tables(rt, &mut tally);
    judge_lists(rt, &mut tally);
    judge_texts(rt, &mut tally);
    let mut wrong = Tally::new(rt.alloc());
    judge_wrong_tables(rt, &mut wrong);
    judge_wrong_lists(rt, &mut wrong);
    judge_wrong_texts(rt, &mut wrong);
    tally.finish(&rt, &wrong)
}

fn judge_tables(rt: HostRuntime, tally: &mut Tally) {
    tally.judge_file(rt, &mut Columns, Form::Rows, "actions.cases");
    tally.judge_file(rt, &mut NamesAndNumbers, Form::Rows, "names.cases");
}

fn judge_lists(rt: HostRuntime, tally: &mut Tally) {
    tally.judge_file(rt, &mut Comparisons, Form::Rows, "comparisons.cases");
    tally.judge_file(rt, &mut Edits, Form::Rows, "edits.cases");
    tally.judge_file(rt, &mut Steps, Form::Blocks, "lists.cases");
}

fn judge_texts(rt: HostRuntime, tally: &mut Tally) {
    tally.judge_file(rt, &mut PairTexts, Form::Rows, "pairs.cases");
    tally.judge_file(rt, &mut ValueTexts, Form::Rows, "values.cases");
    tally.judge_file(rt, &mut PrintedTexts, Form::Rows, "printing.cases");
    tally.judge_file(rt, &mut PrintedTexts, Form::Rows, "read_back.cases");
}

fn judge_wrong_tables(rt: HostRuntime, wrong: &mut Tally) {
    wrong.judge_file(rt, &mut Columns, Form::Rows, "wrong_actions.cases");
    wrong.judge_file(rt, &mut NamesAndNumbers, Form::Rows, "wrong_names.cases");
}

fn judge_wrong_lists(rt: HostRuntime, wrong: &mut Tally) {
    wrong.judge_file(rt, &mut Comparisons, Form::Rows, "wrong_comparisons.cases");
    wrong.judge_file(rt, &mut Edits, Form::Rows, "wrong_edits.cases");
    wrong.judge_file(rt, &mut Steps, Form::Blocks, "wrong_lists.cases");
}

fn judge_wrong_texts(rt: HostRuntime, wrong: &mut Tally) {
    wrong.judge_file(rt, &mut PairTexts, Form::Rows, "wrong_pairs.cases");
    wrong.judge_file(rt, &mut ValueTexts, Form::Rows, "wrong_values.cases");
    wrong.judge_file(rt, &mut PrintedTexts, Form::Rows, "wrong_printing.cases");
    wrong.judge_file(rt, &mut PrintedTexts, Form::Rows, "wrong_read_back.cases");
}
