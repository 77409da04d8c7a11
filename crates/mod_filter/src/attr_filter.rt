//! The module `attr_filter`.

ghost use Rattle.std.specs.Prelude.{◌≡◌, IfOk};
ghost use Rattle.mod_lists.specs.Done.{done_to_lists};
ghost use Rattle.mod_filter.specs.Module.{filter_by, filter_methods, filter_edits, filter_for, filter_in};
ghost use Rattle.mod_filter.specs.Lawful.{filter_is_lawful};

use crate::filter::filter_done;
use mod_base::{MethodSet, Module, World};
use mod_users::Users;
use rad_dict::Dict;
use rad_outside::NoMemory;
use rad_value::{ListName, Lists, Scope};
use rad_words::{Code, Section};
use std::alloc::Global;
use unlang_xlat::Xlat;

/// The kind `attr_filter`, after rlm_attr_filter(5): a filter file, and the expansion that names the entries of a request, its
/// key. In authorize and preacct the request is filtered, in accounting and post-auth the reply.
#[derive(Drop)]
pub struct AttrFilter {
    users: Users,
    key: Xlat,
}

impl AttrFilter {
    /// The module of a filter file's entries, which `Users::read_filter` gave, and of a key.
    pub fn new(users: Users, key: Xlat) -> AttrFilter
        ensures { result ≡ filter_by users key }
    {
        AttrFilter { users, key }
    }
}

/// What a filter file does in a section, for a key.
fn filter_for(
    alloc: Global,
    users: &Users,
    key: &[u8],
    section: Section,
    lists: &mut Lists,
    dict: &Dict,
) -> Result<Code, NoMemory>
    ensures { IfOk result (λ code. (lists.new, code) ≡ filter_for users.now key.now dict.now section lists.old) }
{
    match section {
        Section::Authorize | Section::Preacct => {
            filter_done(alloc, users, key, ListName::Request, lists, dict)
        }
        Section::Accounting | Section::PostAuth => {
            filter_done(alloc, users, key, ListName::Reply, lists, dict)
        }
        Section::Authenticate | Section::Session => Ok(Code::Noop),
    }
}

impl Module for AttrFilter {
    ghost meaning = { record {
      methods = λ m. filter_methods;
      edits = λ m. filter_edits;
      does = λ m dict method. done_to_lists (filter_in m dict method);
    } };

    fn methods(&self) -> MethodSet {
        MethodSet {
            methods: [true, false, false, true, true, true],
        }
    }

    fn call<W: World>(
        &self,
        alloc: Global,
        method: Section,
        scope: &mut Scope,
        _world: &mut W,
        dict: &Dict,
    ) -> Result<Code, NoMemory> {
        let key = self.key.expand(alloc, scope, dict)?;
        filter_for(
            alloc,
            &self.users,
            key.as_slice(),
            method,
            &mut scope.lists,
            dict,
        )
    }

    ghost lawful = { λ m dict method situation. filter_is_lawful m dict method situation };
}
