//! The entries of a users file, read line by line.

ghost use Rattle.std.specs.Prelude.{◌≡◌, ℕ, List, ◌+◌, ◌∷◌, ◌≤◌, length, IfOk, true, Some, None};
ghost use Rattle.std.specs.Option.{option_map};
ghost use Rattle.mod_users.specs.Lines.{head_of};
ghost use Rattle.mod_users.specs.Items.{items_of};
ghost use Rattle.mod_users.specs.Reading.{bad_entry, replied, begun, after_line, drafts_of};

use crate::draft::{Draft, Drafts};
use crate::fault::LineFault;
use crate::form::Form;
use crate::items::{Cut, items_of};
use crate::lines::{head_of, is_indented, is_passed};
use crate::placed::PlacedList;
use rad_dict::Dict;
use rad_outside::NoMemory;
use rad_pairs::Spot;
use rad_text::{ReadError, first_line};
use std::alloc::Global;

/// The fault of a line that may not stand there, or whose name has an open quote.
fn bad_entry(line: u32) -> LineFault
    ensures { result ≡ bad_entry line }
{
    LineFault::BadEntry(Spot { line, column: 1 })
}

/// Adds the items of an indented line to the last entry, and answers the fault.
fn add_replies(
    alloc: Global,
    form: Form,
    drafts: &mut Vec<Draft>,
    number: u32,
    line: &[u8],
    dict: &Dict,
) -> Result<Option<LineFault>, NoMemory>
    ensures ok { IfOk result (λ wrong. (drafts.new.items, wrong)
        ≡ replied number (items_of form true number (length line.now) line.now dict.now) drafts.old.items) }
    ensures bound { length drafts.new.items ≤ length drafts.old.items }
{
    let Some(draft) = drafts.pop() else {
        return Ok(Some(bad_entry(number)));
    };
    let Cut { items, wrong } = items_of(alloc, form, true, number, line.len(), line, dict)?;
    drafts.push(draft.with_replies(items)?)?;
    Ok(wrong)
}

/// Begins the entry of a line, and answers the fault.
fn begin_entry(
    alloc: Global,
    drafts: &mut Vec<Draft>,
    number: u32,
    line: &[u8],
    dict: &Dict,
) -> Result<Option<LineFault>, NoMemory>
    ensures ok { IfOk result (λ wrong. (drafts.new.items, wrong)
        ≡ begun number (length line.now) drafts.old.items dict.now (head_of line.now)) }
    ensures bound { length drafts.new.items ≤ length drafts.old.items + 1 }
{
    let (name, parted, rest) = match head_of(alloc, line) {
        Ok(head) => head,
        Err(ReadError::Wrong(_)) => return Ok(Some(bad_entry(number))),
        Err(ReadError::NoMemory) => return Err(NoMemory),
    };
    let Cut { items, wrong } = items_of(
        alloc,
        Form::Check,
        parted,
        number,
        line.len(),
        rest,
        dict,
    )?;
    drafts.push(Draft {
        name,
        checks: items,
        replies: PlacedList::from_vec(Vec::new(alloc)),
        line: number,
    })?;
    Ok(wrong)
}

/// Takes the next line, which has this number, and answers its fault.
#[tactic(auto, unfolding(crate::specs::Reading::after_line))]
fn take_line(
    alloc: Global,
    form: Form,
    drafts: &mut Vec<Draft>,
    number: u32,
    line: &[u8],
    dict: &Dict,
) -> Result<Option<LineFault>, NoMemory>
    ensures ok { IfOk result (λ wrong. (drafts.new.items, wrong)
        ≡ after_line form number drafts.old.items line.now dict.now) }
    ensures bound { length drafts.new.items ≤ length drafts.old.items + 1 }
{
    if is_passed(line) {
        return Ok(None);
    }
    if is_indented(line) {
        return add_replies(alloc, form, drafts, number, line, dict);
    }
    begin_entry(alloc, drafts, number, line, dict)
}

/// The entries of a text, whose reply items stand in this form, up to its first fault; no pattern is tried.
pub fn drafts_of(alloc: Global, form: Form, text: &[u8], dict: &Dict) -> Result<Drafts, NoMemory>
    requires { length text.now ≤ 4194304 }
    ensures read { IfOk result (λ read. (read.drafts.items, read.wrong) ≡ drafts_of form text.now dict.now) }
    ensures bound { IfOk result (λ read. length read.drafts.items ≤ length text.now) }
{
    let mut drafts = Vec::new(alloc);
    let mut rest = text;
    let mut number = 1;
    while !rest.is_empty() {
        let (line, after) = first_line(rest);
        let wrong = take_line(alloc, form, &mut drafts, number, line, dict)?;
        if wrong.is_some() {
            return Ok(Drafts { drafts, wrong });
        }
        rest = after;
        number += 1;
    }
    Ok(Drafts {
        drafts,
        wrong: None,
    })
}
