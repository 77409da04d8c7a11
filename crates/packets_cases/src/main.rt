//! Worked examples of packets: datagrams that are taken or dropped, the pairs of requests, the octets of replies and of
//! requests, replies that answer a request, and passwords hidden and revealed, each as `rad_wire` gives it and as a file of cases says.
//! The program has no model and no contracts: it compares and counts. Nothing stands above it.
#![tactic(auto)]

mod answers;
mod decoded;
mod drops;
mod hiding;
mod pair_reading;
mod pair_writing;
mod replies;
mod request;
mod requests;
mod spelled;

use crate::answers::AnswerCases;
use crate::decoded::DecodeCases;
use crate::drops::DropCases;
use crate::hiding::HidingCases;
use crate::replies::ReplyCases;
use crate::requests::RequestCases;
use shared_cases::{Form, Tally};
use std::process::ExitCode;

/// Tries the cases of each file, and those that are meant to differ.
fn main(rt: HostRuntime) -> ExitCode {
    let mut tally = Tally::new(rt.alloc());
    judge_received(rt, &mut tally);
    judge_made(rt, &mut tally);
    let mut wrong = Tally::new(rt.alloc());
    judge_wrong_received(rt, &mut wrong);
    judge_wrong_made(rt, &mut wrong);
    tally.finish(&rt, &wrong)
}

/// Tries the cases of datagrams that come: requests to a server, and replies to a client.
fn judge_received(rt: HostRuntime, tally: &mut Tally) {
    tally.judge_file(rt, &mut DropCases, Form::Rows, "check.cases");
    tally.judge_file(rt, &mut DecodeCases, Form::Rows, "decode.cases");
    tally.judge_file(rt, &mut AnswerCases, Form::Rows, "answers.cases");
}

/// Tries the cases of octets that are made.
fn judge_made(rt: HostRuntime, tally: &mut Tally) {
    tally.judge_file(rt, &mut ReplyCases, Form::Blocks, "replies.cases");
    tally.judge_file(rt, &mut RequestCases, Form::Blocks, "requests.cases");
    tally.judge_file(rt, &mut HidingCases, Form::Rows, "hiding.cases");
}

fn judge_wrong_received(rt: HostRuntime, wrong: &mut Tally) {
    wrong.judge_file(rt, &mut DropCases, Form::Rows, "wrong_check.cases");
    wrong.judge_file(rt, &mut DecodeCases, Form::Rows, "wrong_decode.cases");
    wrong.judge_file(rt, &mut AnswerCases, Form::Rows, "wrong_answers.cases");
}

fn judge_wrong_made(rt: HostRuntime, wrong: &mut Tally) {
    wrong.judge_file(rt, &mut ReplyCases, Form::Blocks, "wrong_replies.cases");
    wrong.judge_file(rt, &mut RequestCases, Form::Blocks, "wrong_requests.cases");
    wrong.judge_file(rt, &mut HidingCases, Form::Rows, "wrong_hiding.cases");
}
