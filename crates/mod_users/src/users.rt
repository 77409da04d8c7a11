//! The users of a users file.

ghost use Rattle.std.specs.Prelude.{◌≡◌, ◌≤◌, length, slice_get, IfOk, IfSome};
ghost use Rattle.std.specs.Option.{option_copied, option_map};
ghost use Rattle.mod_users.specs.Users.{fault_of};
ghost use Rattle.mod_users.specs.Rows.{entries_in, IsReadyRow, AreReadyRows};

use crate::draft::Drafts;
use crate::fault::LineFault;
use crate::fits::{check_fits, fits, reply_met};
use crate::form::Form;
use crate::reading::drafts_of;
use crate::row::{Row, rows_of};
use crate::search::{Next, default_key, name_key, names_of, next_place, try_row};
use crate::{Entry, UsersFault};
use rad_dict::Dict;
use rad_index::Index;
use rad_outside::NoMemory;
use rad_text::ReadError;
use rad_value::{Lists, Scope, Value};
use rad_words::Code;
use std::alloc::Global;
use std::marker::Model;

/// The entries of a users file, in file order, with their patterns compiled. The entries of a name are found without a look
/// at those of other names.
#[derive(Drop)]
pub struct Users {
    rows: Vec<Row>,
    names: Index,
}

impl Model for Users {
    ghost use Rattle.std.specs.Prelude.{◌≡◌, List, ◌≤◌, length, map};
    ghost use Rattle.mod_users.specs.declared.entry.Entry.{Entry};
    ghost use Rattle.mod_users.specs.Rows.{entries_in, AreReadyRows};
    ghost use Rattle.mod_users.specs.Search.{row_key};

    ghost Value = { List Entry };

    ghost view = { λ u. entries_in u.rows.items };

    ghost invariant = { λ u. record {
      names : u.names ≡ map row_key u.rows.items;
      bound : length u.rows.items ≤ 4194304;
      ready : AreReadyRows u.rows.items;
    } };
}

/// The fault of a users file that a line has.
fn fault_of(wrong: LineFault) -> UsersFault
    ensures { result ≡ fault_of wrong }
{
    match wrong {
        LineFault::UnknownAttr(spot) => UsersFault::UnknownAttr(spot),
        LineFault::BadOperator(spot) => UsersFault::BadOperator(spot),
        LineFault::BadValue(spot) => UsersFault::BadValue(spot),
        LineFault::BadEntry(spot) => UsersFault::BadEntry(spot),
    }
}

/// The row of a place, if there is one.
fn row_at(rows: &[Row], place: usize) -> Option<&Row>
    requires ready { AreReadyRows rows.now }
    ensures entry { option_map (λ row. row.now.entry) result ≡ slice_get (entries_in rows.now) place }
    ensures ready { IfSome result (λ row. IsReadyRow row.now) }
{
    rows.get(place)
}

impl Users {
    ghost use Rattle.std.specs.Prelude.{[]};
    ghost use Rattle.mod_users.specs.declared.form.Form.TheVariants as form;
    ghost use Rattle.mod_users.specs.Fits.{fits_at, item_fits_at, reply_meets_at};
    ghost use Rattle.mod_users.specs.Files.{files_done};
    ghost use Rattle.rad_text.specs.Answers.{IsAnswer};
    ghost use Rattle.mod_users.specs.Users.{users_of_text, says};

    /// No entries.
    pub fn new(alloc: Global) -> Users
        ensures { result ≡ [] }
    {
        Users {
            rows: Vec::new(alloc),
            names: Index::new(alloc),
        }
    }

    /// The entries of a text whose reply items stand in this form.
    fn read_form(alloc: Global, form: Form, text: &[u8], dict: &Dict) -> Result<Users, UsersFault>
        requires { length text.now ≤ 4194304 }
        ensures { IsAnswer says (users_of_text form text.now dict.now) result }
    {
        let Ok(Drafts { drafts, wrong }) = drafts_of(alloc, form, text, dict) else {
            return Err(UsersFault::NoMemory);
        };
        let rows = match rows_of(alloc, drafts) {
            Ok(rows) => rows,
            Err(ReadError::Wrong(spot)) => return Err(UsersFault::BadPattern(spot)),
            Err(ReadError::NoMemory) => return Err(UsersFault::NoMemory),
        };
        if let Some(wrong) = wrong {
            return Err(fault_of(wrong));
        }
        let Ok(names) = names_of(alloc, rows.as_slice()) else {
            return Err(UsersFault::NoMemory);
        };
        Ok(Users { rows, names })
    }

    /// The entries of a users file, or its first fault in reading order, after users(5). For each item UnknownAttr comes
    /// before BadOperator, that before BadValue, and that before BadPattern. A text has at most 4 MiB, so that its lines are
    /// counted in 32 bits.
    pub fn read(alloc: Global, text: &[u8], dict: &Dict) -> Result<Users, UsersFault>
        requires { length text.now ≤ 4194304 }
        ensures { IsAnswer says (users_of_text form.Reply text.now dict.now) result }
    {
        Users::read_form(alloc, Form::Reply, text, dict)
    }

    /// The entries of a filter file, after rlm_attr_filter(5): a users file whose reply items take every operator but `=` and
    /// `+=`.
    pub fn read_filter(alloc: Global, text: &[u8], dict: &Dict) -> Result<Users, UsersFault>
        requires { length text.now ≤ 4194304 }
        ensures { IsAnswer says (users_of_text form.Filter text.now dict.now) result }
    {
        Users::read_form(alloc, Form::Filter, text, dict)
    }

    /// How many entries there are.
    pub fn len(&self) -> u32
        ensures { result ≡ length self.now }
    {
        self.rows.len() as u32
    }

    /// The n-th entry, counted from 0, or none exactly where n is at least `len`.
    pub fn get(&self, n: u32) -> Option<&Entry>
        ensures { option_copied result ≡ slice_get self.now n }
    {
        match self.rows.get(n as usize) {
            Some(row) => Some(&row.entry),
            None => None,
        }
    }

    /// Whether a check item of an entry matches the request, both counted from 0. It doesn't where there is no such item.
    pub fn item_fits(
        &self,
        alloc: Global,
        n: u32,
        item: u32,
        scope: &Scope,
        dict: &Dict,
    ) -> Result<bool, NoMemory>
        ensures { IfOk result (λ fit. fit ≡ item_fits_at self.now n item scope.now.lists.request dict.now) }
    {
        match row_at(self.rows.as_slice(), n as usize) {
            Some(row) => check_fits(alloc, row, item as usize, &scope.lists, dict),
            None => Ok(false),
        }
    }

    /// Whether an entry, counted from 0, matches the request under a key: its name is DEFAULT or the key, and all of its check
    /// items match. It doesn't where there is no such entry.
    pub fn fits(
        &self,
        alloc: Global,
        n: u32,
        key: &[u8],
        scope: &Scope,
        dict: &Dict,
    ) -> Result<bool, NoMemory>
        ensures { IfOk result (λ fit. fit ≡ fits_at self.now n key.now scope.now.lists.request dict.now) }
    {
        match row_at(self.rows.as_slice(), n as usize) {
            Some(row) => fits(alloc, row, key, &scope.lists, dict),
            None => Ok(false),
        }
    }

    /// Whether a value meets a reply item of an entry, both counted from 0, by the rule of filters: `:=` and `=*` are met by
    /// every value, `!*` by none, `=~` and `!~` by the value's text, and the others are comparisons. No value meets `=` or `+=`,
    /// nor an item that isn't there.
    pub fn reply_meets(
        &self,
        alloc: Global,
        n: u32,
        item: u32,
        value: &Value,
        dict: &Dict,
    ) -> Result<bool, NoMemory>
        ensures { IfOk result (λ met. met ≡ reply_meets_at self.now n item value.now dict.now) }
    {
        match row_at(self.rows.as_slice(), n as usize) {
            Some(row) => reply_met(alloc, row, item as usize, value, dict),
            None => Ok(false),
        }
    }

    /// Does to the lists what the entries that match the request under a key say, and answers the code: `Ok` where an entry
    /// matched, `Fail` where a list was full, with the edits before done, and `Noop` where none matched. After `NoMemory` some
    /// of the edits may be done, and the lists are given up.
    pub(crate) fn do_entries(
        &self,
        alloc: Global,
        key: &[u8],
        lists: &mut Lists,
        dict: &Dict,
    ) -> Result<Code, NoMemory>
        ensures { IfOk result (λ code. (lists.new, code) ≡ files_done self.now key.now dict.now lists.old) }
    {
        let rows = self.rows.as_slice();
        let mut named = self.names.places(name_key(key));
        let mut others = self.names.places(default_key());
        let mut found = false;
        while let Some((place, more_named, more_others)) = next_place(named, others) {
            let Some(row) = row_at(rows, place) else {
                return Ok(Code::Noop);
            };
            match try_row(alloc, row, key, lists, dict)? {
                Next::Passed => {}
                Next::Through => found = true,
                Next::Ends(code) => return Ok(code),
            }
            named = more_named;
            others = more_others;
        }
        Ok(if found { Code::Ok } else { Code::Noop })
    }
}
