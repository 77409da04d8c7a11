//! Cases are compared and counted, and what differs is said.

use crate::block_form::blocks;
use crate::case::Case;
use crate::row_form::rows;
use crate::spelling::push_number;
use rad_edge::HostFiles;
use rad_outside::{Files, Found, NoMemory};
use std::alloc::Global;
use std::process::ExitCode;
use std::{io, rt};

/// How the cases of a file are written.
#[derive(Clone, Copy, Debug, PartialEq, Eq)]
pub enum Form {
    /// A case is a line, whose cells a tab parts.
    Rows,
    /// A case is several lines.
    Blocks,
}

/// What a program tries cases on.
pub trait Subject {
    /// What is given for a case, as the text that the case's field `gives` is compared with.
    fn answer(&mut self, alloc: Global, case: &Case) -> Result<Vec<u8>, NoMemory>;
}

/// The cases so far: how many, how many of them were wrong, and what is said of those.
#[derive(Drop)]
pub struct Tally {
    alloc: Global,
    cases: u64,
    wrong: u64,
    report: Vec<u8>,
}

impl Tally {
    /// No case yet.
    pub fn new(alloc: Global) -> Tally {
        Tally {
            alloc,
            cases: 0,
            wrong: 0,
            report: Vec::new(alloc),
        }
    }

    /// Tries the cases of a file in the folder that the program runs in. A file that can't be read, one that has no case,
    /// and want of memory count as one wrong case.
    pub fn judge_file<R: rt::Files + Input + Eprint + Alloc<A = Global> + Clone + Drop, S: Subject>(
        &mut self,
        rt: R,
        subject: &mut S,
        form: Form,
        file: &str,
    ) {
        if let Err(NoMemory) = self.try_file(rt, subject, form, file) {
            self.count_wrong();
        }
    }

    fn try_file<R: rt::Files + Input + Eprint + Alloc<A = Global> + Clone + Drop, S: Subject>(
        &mut self,
        rt: R,
        subject: &mut S,
        form: Form,
        file: &str,
    ) -> Result<(), NoMemory> {
        let alloc = self.alloc;
        let Found::Bytes(octets) = HostFiles::new(rt).read(alloc, file) else {
            return self.fail(file, 0, b"the file can't be read");
        };
        let cases = match form {
            Form::Rows => rows(alloc, octets.as_slice())?,
            Form::Blocks => blocks(alloc, octets.as_slice())?,
        };
        if cases.is_empty() {
            return self.fail(file, 0, b"the file has no case");
        }
        for case in &cases {
            let got = subject.answer(alloc, case)?;
            self.judge(file, case, got.as_slice())?;
        }
        Ok(())
    }

    /// Counts a case, and says where what was given differs from what was wanted.
    fn judge(&mut self, file: &str, case: &Case, got: &[u8]) -> Result<(), NoMemory> {
        let Some(want) = case.find(b"gives") else {
            return self.fail(file, case.line, b"no field says what the case gives");
        };
        if want == got {
            self.cases = self.cases.saturating_add(1);
            return Ok(());
        }
        let (want, got) = first_difference(want, got);
        self.fail(file, case.line, b"wanted:")?;
        self.say(b"    ", want)?;
        self.say(b"got:\n    ", got)
    }

    fn count_wrong(&mut self) {
        self.cases = self.cases.saturating_add(1);
        self.wrong = self.wrong.saturating_add(1);
    }

    /// Counts a wrong case, and says why.
    fn fail(&mut self, file: &str, line: u64, why: &[u8]) -> Result<(), NoMemory> {
        self.count_wrong();
        self.report.extend_from_slice(file.as_bytes())?;
        self.report.push(b'[')?;
        push_number(self.alloc, &mut self.report, line)?;
        self.say(b"]: ", why)
    }

    /// Adds a line to what is said.
    fn say(&mut self, front: &[u8], text: &[u8]) -> Result<(), NoMemory> {
        self.report.extend_from_slice(front)?;
        self.report.extend_from_slice(text)?;
        self.report.push(b'\n')?;
        Ok(())
    }

    /// Prints how many cases there were, and on standard error what is said of those that were wrong. Each case that is
    /// meant to differ has to be wrong. Answers 0 where all is as it should be.
    pub fn finish<R: Print + Eprint>(&self, rt: &R, meant_to_differ: &Tally) -> ExitCode {
        let found = meant_to_differ.wrong;
        let meant = meant_to_differ.cases;
        match self.print(rt, found, meant) {
            Ok(()) if self.wrong == 0 && self.cases > 0 && found == meant && meant > 0 => {
                ExitCode::from(0)
            }
            _ => ExitCode::from(1),
        }
    }

    fn print<R: Print + Eprint>(&self, rt: &R, found: u64, meant: u64) -> io::Result<()> {
        let cases = self.cases;
        let wrong = self.wrong;
        let report = String::from_utf8_lossy(self.alloc, self.report.as_slice())?;
        if wrong > 0 {
            eprint!(rt; "{report}")?;
        }
        println!(rt; "{meant} meant to differ, {found} found")?;
        println!(rt; "{cases} cases, {wrong} wrong")
    }
}

/// The first lines of two texts that differ. Where one text has ended its line is empty.
fn first_difference<'a>(want: &'a [u8], got: &'a [u8]) -> (&'a [u8], &'a [u8]) {
    let mut others = got.split(|octet| *octet == b'\n');
    for line in want.split(|octet| *octet == b'\n') {
        let other = others.next().unwrap_or(&[]);
        if line != other {
            return (line, other);
        }
    }
    (b"(the end)", others.next().unwrap_or(&[]))
}
