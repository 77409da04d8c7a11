ghost use Rattle.std.specs.Prelude.{◌≡◌, ℕ, ◌<◌, ◌≤◌, ◌^◌, ◌↔◌, [], ◌∷◌, ◌++◌, length, slice_get, MatchBool, IfOk, OnOk, OnErr};
ghost use Rattle.std.specs.Option.{option_copied};
ghost use Rattle.rad_value.specs.Edit.{lists_edited, IsFullFor, tried};
ghost use Rattle.rad_value.specs.PairLists.{no_pairs, list_of, with_list};
ghost use Rattle.rad_value.specs.Pairs.{pairs_of, values_of, first_text};

use crate::{Edit, EditFault, ListName, Pair, Updated, Value, listed};
use rad_outside::NoMemory;
use rad_words::AttrId;
use std::alloc::Global;
use std::marker::Model;

/// The three lists of pairs that a request's policy works on. Each holds at most 2^31 pairs.
#[derive(Drop)]
pub struct Lists {
    alloc: Global,
    request: Vec<Pair>,
    reply: Vec<Pair>,
    control: Vec<Pair>,
}

impl Model for Lists {
    ghost use Rattle.std.specs.Prelude.{◌≤◌, ◌^◌, length};
    ghost use Rattle.rad_value.specs.PairLists.{PairLists};

    ghost Value = { PairLists };

    ghost view = { λ l. record {
      request = l.request.items;
      reply = l.reply.items;
      control = l.control.items;
    } };

    ghost invariant = { λ l. record {
      request : length l.request.items ≤ 2 ^ 31;
      reply : length l.reply.items ≤ 2 ^ 31;
      control : length l.control.items ≤ 2 ^ 31;
    } };
}

impl Lists {
    /// Three lists without a pair.
    pub fn new(alloc: Global) -> Lists
        ensures { result ≡ no_pairs }
    {
        Lists {
            alloc,
            request: Vec::new(alloc),
            reply: Vec::new(alloc),
            control: Vec::new(alloc),
        }
    }

    fn pairs(&self, list: ListName) -> &[Pair]
        ensures pairs { result.now ≡ list_of self.now list }
        ensures bound { length result.now ≤ 2 ^ 31 }
    {
        match list {
            ListName::Request => self.request.as_slice(),
            ListName::Reply => self.reply.as_slice(),
            ListName::Control => self.control.as_slice(),
        }
    }

    /// The value of the list's n-th pair of the attribute, counted from 0.
    pub fn nth(&self, list: ListName, attr: AttrId, n: u32) -> Option<&Value>
        ensures { option_copied result ≡ slice_get (values_of attr (list_of self.now list)) n }
    {
        listed::nth(self.pairs(list), attr, n as usize)
    }

    /// The text of the list's first pair of the attribute. A value that is no text counts as none, and no later pair
    /// is looked for.
    pub fn first_text(&self, list: ListName, attr: AttrId) -> Option<&[u8]>
        ensures { option_copied result ≡ first_text attr (list_of self.now list) }
    {
        match self.nth(list, attr, 0) {
            Some(value) => value.text(),
            None => None,
        }
    }

    /// How many pairs of the attribute the list has.
    pub fn count(&self, list: ListName, attr: AttrId) -> u32
        ensures { result ≡ length (pairs_of attr (list_of self.now list)) }
    {
        listed::count(self.pairs(list), attr) as u32
    }

    /// How many pairs the list has.
    pub fn len(&self, list: ListName) -> u32
        ensures length { result ≡ length (list_of self.now list) }
        ensures bound { result ≤ 2 ^ 31 }
    {
        self.pairs(list).len() as u32
    }

    /// The list's n-th pair, counted from 0.
    pub fn get(&self, list: ListName, n: u32) -> Option<&Pair>
        ensures { option_copied result ≡ slice_get (list_of self.now list) n }
    {
        self.pairs(list).get(n as usize)
    }

    /// Adds a pair at the list's tail, however many the list has.
    pub fn push(&mut self, list: ListName, pair: Pair) -> Result<(), NoMemory>
        requires { length (list_of self.old list) < 2 ^ 31 }
        ensures ok { OnOk result
            (self.new ≡ with_list self.old list (list_of self.old list ++ pair ∷ [])) }
        ensures err { OnErr result (self.new ≡ self.old) }
    {
        match list {
            ListName::Request => self.request.push(pair)?,
            ListName::Reply => self.reply.push(pair)?,
            ListName::Control => self.control.push(pair)?,
        }
        Ok(())
    }

    /// Does the edit in the list that it names. A list of 512 pairs or more takes no further pair by an
    /// edit, whatever `push` added.
    pub fn update(&mut self, edit: &Edit) -> Result<Updated, EditFault>
        ensures done { OnOk result (self.new ≡ lists_edited self.old edit.now) }
        ensures length { IfOk result
            (λ updated. updated.length ≡ length (list_of self.new edit.now.list)) }

        // A full list is answered as such, and never as want of memory.
        ensures full { (n : ℕ) → (result ≡ Err (EditFault.ListFull n)) ↔ IsFullFor self.old edit.now n }
        ensures refused { OnErr result (self.new ≡ self.old) }
    {
        match self.update_list(edit) {
            Ok(()) => Ok(Updated {
                length: self.len(edit.list),
            }),
            Err(fault) => Err(fault),
        }
    }

    /// Does the edit in the list that it names, and answers whether that list wasn't full for it. Where it was,
    /// and where memory ran out, the lists are as they were.
    pub fn try_update(&mut self, edit: &Edit) -> Result<bool, NoMemory>
        ensures ok { IfOk result (λ done. MatchBool done
            (tried self.old edit.now ≡ Some self.new)
            ((tried self.old edit.now ≡ None) × (self.new ≡ self.old))) }
        ensures err { OnErr result (self.new ≡ self.old) }
    {
        match self.update(edit) {
            Ok(_) => Ok(true),
            Err(EditFault::ListFull(_)) => Ok(false),
            Err(EditFault::NoMemory) => Err(NoMemory),
        }
    }

    fn update_list(&mut self, edit: &Edit) -> Result<(), EditFault>
        ensures done { OnOk result (self.new ≡ lists_edited self.old edit.now) }
        ensures full { (n : ℕ) → (result ≡ Err (EditFault.ListFull n)) ↔ IsFullFor self.old edit.now n }
        ensures refused { OnErr result (self.new ≡ self.old) }
    {
        match edit.list {
            ListName::Request => listed::update(self.alloc, &mut self.request, edit),
            ListName::Reply => listed::update(self.alloc, &mut self.reply, edit),
            ListName::Control => listed::update(self.alloc, &mut self.control, edit),
        }
    }
}
