//! The groups of pairs in a file.

ghost use Rattle.std.specs.Prelude.{◌≡◌, Ok, OnOk};
ghost use Rattle.rad_dict.specs.Base.{base_definitions};
ghost use Rattle.rad_text.specs.Lines.{lines_of};
ghost use Rattle.rad_text.specs.Read.{Gives};
ghost use Rattle.radclient.specs.Groups.{added, closed, error_of, groups_of, lines_read, is_empty, is_one_too_many, line_read, passed, taken, unread, with_items, with_line};

use crate::fault::{LineFault, Reason};
use rad_dict::Dict;
use rad_outside::NoMemory;
use rad_pairs::{Item, ItemList, PairFault, read_plain_pairs};
use rad_text::{ReadError, after_blanks, first_line};
use rad_value::{ListName, Lists, Pair};
use std::alloc::Global;
use std::marker::Model;
use std::mem::replace;

/// So many pairs of a group are kept at most.
const MOST: u32 = 2_147_483_648;

/// No group is opened behind so many.
const MOST_GROUPS: usize = 4096;

/// Whether a line has nothing but blanks.
fn is_empty(text: &[u8]) -> bool
    ensures { result ≡ is_empty text.now }
{
    after_blanks(text).is_empty()
}

/// Adds a pair to a group.
fn add(alloc: Global, pairs: &mut Lists, item: &Item) -> Result<(), NoMemory>
    ensures { OnOk result (pairs.new ≡ added pairs.old item.now) }
{
    if pairs.len(ListName::Request) < MOST {
        let value = item.value.try_clone(alloc)?;
        let pair = Pair {
            attr: item.attr,
            value,
        };
        pairs.push(ListName::Request, pair)?;
    }
    Ok(())
}

/// Adds the pairs of a line to a group.
fn add_items(alloc: Global, pairs: &mut Lists, items: &ItemList) -> Result<(), NoMemory>
    ensures { OnOk result (pairs.new ≡ with_items pairs.old items.now) }
{
    for n in 0..items.len() {
        let Some(item) = items.get(n) else {
            break;
        };
        add(alloc, pairs, item)?;
    }
    Ok(())
}

/// Why a line's pairs can't be read.
fn error_of(fault: PairFault) -> ReadError<Reason>
    ensures { result ≡ error_of fault }
{
    match fault {
        PairFault::UnknownAttr(_) => ReadError::Wrong(Reason::UnknownAttr),
        PairFault::BadOperator(_) => ReadError::Wrong(Reason::BadOperator),
        PairFault::BadValue(_) => ReadError::Wrong(Reason::BadValue),
        PairFault::NoMemory => ReadError::NoMemory,
    }
}

/// Reads a line and adds its pairs to a group.
fn add_line(
    alloc: Global,
    pairs: &mut Lists,
    text: &[u8],
    dict: &Dict,
) -> Result<(), ReadError<Reason>>
    requires { dict.now ≡ base_definitions }
    ensures { Gives (λ _. pairs.new) result (with_line pairs.old text.now) }
{
    match read_plain_pairs(alloc, text, dict) {
        Ok(items) => match add_items(alloc, pairs, &items) {
            Ok(()) => Ok(()),
            Err(NoMemory) => Err(ReadError::NoMemory),
        },
        Err(fault) => Err(error_of(fault)),
    }
}

/// How far a file was read.
#[derive(Drop)]
struct Reading {
    groups: Vec<Lists>,
    is_open: bool,
    pairs: Lists,
    line: u32,
}

impl Model for Reading {
    ghost use Rattle.radclient.specs.Groups.{Reading};

    ghost Value = { Reading };

    ghost view = { λ r. record {
      groups = r.groups.items;
      is_open = r.is_open;
      pairs = r.pairs;
      line = r.line;
    } };
}

impl Reading {
    /// Nothing was read yet.
    fn new(alloc: Global) -> Reading
        ensures { result ≡ unread }
    {
        Reading {
            groups: Vec::new(alloc),
            is_open: false,
            pairs: Lists::new(alloc),
            line: 1,
        }
    }

    /// Closes the group that is open.
    fn close(&mut self, alloc: Global) -> Result<(), NoMemory>
        ensures { OnOk result (self.new ≡ closed self.old) }
    {
        if self.is_open {
            let pairs = replace(&mut self.pairs, Lists::new(alloc));
            self.groups.push(pairs)?;
            self.is_open = false;
        }
        Ok(())
    }

    /// Whether the next group is one too many.
    fn is_one_too_many(&self) -> bool
        ensures { result ≡ is_one_too_many self.now }
    {
        !self.is_open && self.groups.len() >= MOST_GROUPS
    }

    /// Reads a line of pairs.
    fn take(&mut self, alloc: Global, text: &[u8], dict: &Dict) -> Result<(), ReadError<LineFault>>
        requires { dict.now ≡ base_definitions }
        ensures { Gives (λ _. self.new) result (taken self.old text.now) }
    {
        match add_line(alloc, &mut self.pairs, text, dict) {
            Ok(()) => {
                self.is_open = true;
                self.line = self.line.saturating_add(1);
                Ok(())
            }
            Err(ReadError::NoMemory) => Err(ReadError::NoMemory),
            Err(ReadError::Wrong(reason)) => Err(ReadError::Wrong(LineFault {
                line: self.line,
                reason,
            })),
        }
    }

    /// Passes an empty line, which closes the open group.
    fn pass(&mut self, alloc: Global) -> Result<(), ReadError<LineFault>>
        ensures { Gives (λ _. self.new) result (Ok (passed self.old)) }
    {
        match self.close(alloc) {
            Ok(()) => {
                self.line = self.line.saturating_add(1);
                Ok(())
            }
            Err(NoMemory) => Err(ReadError::NoMemory),
        }
    }

    /// Reads a line.
    #[tactic(auto, unfolding(crate::specs::Groups::line_read))]
    fn read_line(
        &mut self,
        alloc: Global,
        text: &[u8],
        dict: &Dict,
    ) -> Result<(), ReadError<LineFault>>
        requires { dict.now ≡ base_definitions }
        ensures { Gives (λ _. self.new) result (line_read self.old text.now) }
    {
        if is_empty(text) {
            return self.pass(alloc);
        }
        if self.is_one_too_many() {
            return Err(ReadError::Wrong(LineFault {
                line: self.line,
                reason: Reason::TooMany,
            }));
        }
        self.take(alloc, text, dict)
    }

    /// Reads the lines of a text.
    fn read_lines(
        &mut self,
        alloc: Global,
        text: &[u8],
        dict: &Dict,
    ) -> Result<(), ReadError<LineFault>>
        requires { dict.now ≡ base_definitions }
        ensures { Gives (λ _. self.new) result (lines_read self.old (lines_of text.now)) }
    {
        let mut rest = text;
        while !rest.is_empty() {
            let (line, after) = first_line(rest);
            match self.read_line(alloc, line, dict) {
                Ok(()) => rest = after,
                Err(error) => return Err(error),
            }
        }
        Ok(())
    }
}

/// The groups of pairs in a file, parted by lines with nothing but blanks, or the first line that is wrong, in reading
/// order.
pub(crate) fn read_groups(
    alloc: Global,
    text: &[u8],
    dict: &Dict,
) -> Result<Vec<Lists>, ReadError<LineFault>>
    requires { dict.now ≡ base_definitions }
    ensures { Gives (λ groups. groups.items) result (groups_of text.now) }
{
    let mut reading = Reading::new(alloc);
    match reading.read_lines(alloc, text, dict) {
        Ok(()) => finish(alloc, reading),
        Err(error) => Err(error),
    }
}

/// The groups that were read, the open one too.
fn finish(alloc: Global, mut reading: Reading) -> Result<Vec<Lists>, ReadError<LineFault>>
    ensures { Gives (λ groups. groups.items) result (Ok (closed reading).groups) }
{
    match reading.close(alloc) {
        Ok(()) => {
            let Reading {
                groups,
                is_open: _,
                pairs: _,
                line: _,
            } = reading;
            Ok(groups)
        }
        Err(NoMemory) => Err(ReadError::NoMemory),
    }
}
