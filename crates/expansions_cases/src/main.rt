//! A program that tries expansions on worked examples: their texts in a scope, their paths, and the faults of texts that are
//! none. The examples are files, in which a case can be added without a proof; what differs is said on standard error. The
//! model is none: what the calls promise is proved where they stand, and here it is held against what others say of them.
#![tactic(auto)]

mod expanding;
mod scopes;

use crate::expanding::Expansions;
use shared_cases::{Form, Tally};
use std::process::ExitCode;

/// Tries the cases, and those that are meant to differ.
fn main(rt: HostRuntime) -> ExitCode {
    let mut tally = Tally::new(rt.alloc());
    tally.judge_file(rt, &mut Expansions, Form::Rows, "expansions.cases");
    let mut wrong = Tally::new(rt.alloc());
    wrong.judge_file(rt, &mut Expansions, Form::Rows, "wrong.cases");
    tally.finish(&rt, &wrong)
}
