//! Worked examples of the whole server, over devices in memory: the program reads them from files, runs each through the
//! server's top call, and compares all that the server did with what the file says. A case is written in fields; what
//! they mean stands at the head of `data/serving.cases`. There is no model and no contract. Nothing stands above it.
#![tactic(auto)]

mod plan;
mod running;
mod script;
mod transcript;

use running::Server;
use shared_cases::{Form, Tally};
use std::process::ExitCode;

/// The files of cases.
const FILES: [&str; 14] = [
    "serving.cases",
    "repeats.cases",
    "failing.cases",
    "words.cases",
    "sites.cases",
    "users.cases",
    "updates.cases",
    "blocks.cases",
    "policies.cases",
    "realms.cases",
    "post_auth.cases",
    "filters.cases",
    "conditions.cases",
    "dictionaries.cases",
];

/// Tries all cases, and those whose expectations are wrong on purpose.
fn main(rt: HostRuntime) -> ExitCode {
    let mut server = Server { rt: &rt };
    let mut tally = Tally::new(rt.alloc());
    for file in FILES {
        tally.judge_file(rt, &mut server, Form::Blocks, file);
    }
    let mut wrong = Tally::new(rt.alloc());
    wrong.judge_file(rt, &mut server, Form::Blocks, "wrong.cases");
    tally.finish(&rt, &wrong)
}
