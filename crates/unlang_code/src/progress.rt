//! How far the statements of a group have come.

ghost use Rattle.std.specs.Prelude.{◌≡◌};
ghost use Rattle.unlang_code.specs.Progress.{code_in, stopped, after_child, absorbed, end_of};

use crate::judgement::{Child, ended_by, heavier_of};
use rad_words::Code;

/// How a run goes on behind a statement.
#[derive(Clone, Copy, Debug, PartialEq, Eq)]
pub(crate) enum Signal {
    /// With the next statement.
    Goes,
    /// Behind the section.
    Returns,
}

/// What a statement came to: how the run goes on, and the child that it gave its group, if any.
#[derive(Clone, Copy, Debug, PartialEq, Eq)]
pub(crate) struct Done {
    pub(crate) signal: Signal,
    pub(crate) child: Option<Child>,
}

/// What a group came to: how the run goes on, and the group's code, if it has one.
#[derive(Clone, Copy, Debug, PartialEq, Eq)]
pub(crate) struct Ended {
    pub(crate) signal: Signal,
    pub(crate) code: Option<Code>,
}

/// How far a group has come.
#[derive(Clone, Copy, Debug, PartialEq, Eq)]
pub(crate) enum Progress {
    /// It goes on, with the heaviest child so far.
    Going(Option<Child>),
    /// It is over.
    Over(Ended),
}

/// The code of a child, if there is one.
fn code_in(child: Option<Child>) -> Option<Code>
    ensures { result ≡ code_in child }
{
    match child {
        Some(child) => Some(child.code),
        None => None,
    }
}

/// How far a group has come behind a signal, with the heaviest child so far.
fn stopped(signal: Signal, leading: Option<Child>) -> Progress
    ensures { result ≡ stopped signal leading }
{
    match signal {
        Signal::Goes => Progress::Going(leading),
        Signal::Returns => Progress::Over(Ended {
            signal,
            code: code_in(leading),
        }),
    }
}

/// The same with one more child.
fn after_child(leading: Option<Child>, signal: Signal, child: Child) -> Progress
    ensures { result ≡ after_child leading signal child }
{
    match ended_by(child) {
        Some(code) => Progress::Over(Ended {
            signal,
            code: Some(code),
        }),
        None => stopped(signal, Some(heavier_of(leading, child))),
    }
}

/// How far a group has come behind a statement, with the heaviest child before it.
pub(crate) fn absorbed(leading: Option<Child>, done: Done) -> Progress
    ensures { result ≡ absorbed leading done }
{
    match done.child {
        None => stopped(done.signal, leading),
        Some(child) => after_child(leading, done.signal, child),
    }
}

/// What a group came to, of which no statement is left.
pub(crate) fn end_of(progress: Progress) -> Ended
    ensures { result ≡ end_of progress }
{
    match progress {
        Progress::Going(leading) => Ended {
            signal: Signal::Goes,
            code: code_in(leading),
        },
        Progress::Over(ended) => ended,
    }
}
