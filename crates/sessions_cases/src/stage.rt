//! The sessions of a script: those of now, those of the last snapshot, and the snapshot that was taken between the room
//! for the last change and that change.
use crate::logs::{push_list, push_session};
use crate::many::many;
use crate::word::{Parts, change_of, split_word};
use rad_outside::NoMemory;
use rad_sessions::{Change, RoomFault, Sessions};
use shared_cases::{decimal, push_number};
use std::alloc::Global;

#[derive(Drop)]
pub struct Stage {
    alloc: Global,
    now: Sessions,
    old: Sessions,
    between: Sessions,
}

impl Stage {
    /// No sessions.
    pub fn new(alloc: Global) -> Stage {
        Stage {
            alloc,
            now: Sessions::new(alloc),
            old: Sessions::new(alloc),
            between: Sessions::new(alloc),
        }
    }

    /// Does what a word says, and writes what it answers.
    pub fn obey(&mut self, word: &[u8], answer: &mut Vec<u8>) -> Result<(), NoMemory> {
        let (first, rest) = split_word(word);
        match first {
            b"old" => ask(self.alloc, &self.old, rest, answer),
            b"between" => ask(self.alloc, &self.between, rest, answer),
            b"snap" => self.snap(answer),
            b"fill" => self.fill(u32::try_from(decimal(rest)).unwrap_or(0), answer),
            b"room" => self.make_room(rest, answer),
            _ => self.change_or_ask(word, answer),
        }
    }

    /// Keeps a snapshot.
    fn snap(&mut self, answer: &mut Vec<u8>) -> Result<(), NoMemory> {
        answer.extend_from_slice(b"snapped")?;
        self.old = self.now.snapshot()?;
        Ok(())
    }

    /// From here on there are so many sessions.
    fn fill(&mut self, count: u32, answer: &mut Vec<u8>) -> Result<(), NoMemory> {
        answer.extend_from_slice(b"filled")?;
        self.now = many(self.alloc, count)?;
        Ok(())
    }

    /// Makes room for a change, which isn't done.
    fn make_room(&mut self, word: &[u8], answer: &mut Vec<u8>) -> Result<(), NoMemory> {
        match change_of(self.alloc, word)? {
            Some(change) => match self.now.make_room(&change) {
                Ok(()) => Ok(answer.extend_from_slice(b"room")?),
                Err(fault) => say_fault(self.alloc, fault, answer),
            },
            None => Ok(answer.extend_from_slice(b"unknown")?),
        }
    }

    fn change_or_ask(&mut self, word: &[u8], answer: &mut Vec<u8>) -> Result<(), NoMemory> {
        match change_of(self.alloc, word)? {
            Some(change) => self.change(change, answer),
            None => ask(self.alloc, &self.now, word, answer),
        }
    }

    /// Makes room for a change, takes a snapshot, and does the change.
    fn change(&mut self, change: Change, answer: &mut Vec<u8>) -> Result<(), NoMemory> {
        match self.now.make_room(&change) {
            Ok(()) => {
                let between = self.now.snapshot();
                self.now.apply(change);
                self.between = between?;
                Ok(answer.extend_from_slice(b"done")?)
            }
            Err(fault) => say_fault(self.alloc, fault, answer),
        }
    }
}

fn say_fault(alloc: Global, fault: RoomFault, answer: &mut Vec<u8>) -> Result<(), NoMemory> {
    match fault {
        RoomFault::Full(count) => {
            answer.extend_from_slice(b"full:")?;
            push_number(alloc, answer, u64::from(count))
        }
        RoomFault::NoMemory => Err(NoMemory),
    }
}

/// What sessions answer to a question.
fn ask(
    alloc: Global,
    sessions: &Sessions,
    word: &[u8],
    answer: &mut Vec<u8>,
) -> Result<(), NoMemory> {
    let (first, rest) = split_word(word);
    let parts = Parts::of(alloc, rest)?;
    match first {
        b"at" => match sessions.at(parts.number(0), parts.number(1)) {
            Some(session) => push_session(alloc, answer, session),
            None => Ok(answer.extend_from_slice(b"none")?),
        },
        b"count" => push_number(alloc, answer, u64::from(sessions.count(rest))),
        b"size" => push_number(alloc, answer, sessions.sorted()?.len() as u64),
        b"nth" => match sessions.sorted()?.get(parts.number(0) as usize) {
            Some(session) => push_session(alloc, answer, session),
            None => Ok(answer.extend_from_slice(b"none")?),
        },
        b"list" => push_list(alloc, answer, &sessions.sorted()?, b','),
        _ => Ok(answer.extend_from_slice(b"unknown")?),
    }
}
