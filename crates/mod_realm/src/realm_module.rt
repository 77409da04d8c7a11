ghost use Rattle.std.specs.Prelude.{◌≡◌, true, false, Some, IfOk};
ghost use Rattle.std.specs.Arc.{arc_value};
ghost use Rattle.std.specs.Option.{option_copied};
ghost use Rattle.mod_lists.specs.Done.{done_to_lists};
ghost use Rattle.mod_realm.specs.Named.{found, found_in, has_realm, named, stripped, realm_done, realm_methods, realm_edits};
ghost use Rattle.mod_realm.specs.Lawful.{realm_is_lawful};

use crate::attributes::{REALM, STRIPPED_USER_NAME, USER_NAME};
use crate::held::Held;
use crate::parting::{RealmFormat, parted};
use crate::realms::Realms;
use mod_base::{MethodSet, Module, World};
use mod_lists::set_text;
use rad_dict::Dict;
use rad_outside::{NoMemory, Octets};
use rad_value::{ListName, Lists, Scope};
use rad_words::{Code, Section};
use std::alloc::Global;
use std::sync::Arc;

/// The kind `realm`: a user's name is parted, and its realm is found among those of the site, after FreeRADIUS' rlm_realm(5).
#[derive(Drop)]
pub struct RealmModule {
    realms: Held,
    format: RealmFormat,
    delimiter: u8,
}

/// What a user's name was found to say: the realm as it is configured, and the user.
#[derive(Drop)]
pub(crate) struct Found {
    pub realm: Octets,
    pub nostrip: bool,
    pub user: Octets,
}

impl RealmModule {
    /// An instance over these realms, which parts names at this delimiter.
    pub fn new(realms: Realms, format: RealmFormat, delimiter: u8) -> RealmModule
        ensures realms { result.realms ≡ realms }
        ensures format { result.format ≡ format }
        ensures delimiter { result.delimiter ≡ delimiter }
    {
        RealmModule {
            realms: Held::own(realms),
            format,
            delimiter,
        }
    }

    /// An instance over realms that others hold, too, as the instances of a site do.
    pub fn sharing(realms: Arc<Realms>, format: RealmFormat, delimiter: u8) -> RealmModule
        ensures realms { result.realms ≡ arc_value realms }
        ensures format { result.format ≡ format }
        ensures delimiter { result.delimiter ≡ delimiter }
    {
        RealmModule {
            realms: Held::shared(realms),
            format,
            delimiter,
        }
    }

    /// What a name says.
    fn found_in(&self, alloc: Global, name: &[u8]) -> Result<Option<Found>, NoMemory>
        ensures { IfOk result (λ one. one ≡ found_in self.now.realms self.now.format self.now.delimiter name.now) }
    {
        let parts = parted(self.format, self.delimiter, name);
        match self.realms.realms().find_or_default(alloc, parts.realm)? {
            Some(realm) => Ok(Some(Found {
                realm: Octets::of(alloc, realm.name.as_slice())?,
                nostrip: realm.nostrip,
                user: Octets::of(alloc, parts.user)?,
            })),
            None => Ok(None),
        }
    }

    /// What the request's User-Name says, where the request has no Realm yet.
    fn found(&self, alloc: Global, lists: &Lists) -> Result<Option<Found>, NoMemory>
        ensures { IfOk result (λ one. one ≡ found self.now.realms self.now.format self.now.delimiter lists.now) }
    {
        if has_realm(lists) {
            return Ok(None);
        }
        match lists.first_text(ListName::Request, USER_NAME) {
            Some(name) => self.found_in(alloc, name),
            None => Ok(None),
        }
    }

    /// What it does in authorize and in preacct.
    fn name(&self, alloc: Global, lists: &mut Lists) -> Result<Code, NoMemory>
        ensures { IfOk result (λ code. (lists.new, code) ≡ named (found self.now.realms self.now.format self.now.delimiter lists.old) lists.old) }
    {
        match self.found(alloc, lists)? {
            Some(found) => named(alloc, &found, lists),
            None => Ok(Code::Noop),
        }
    }

    /// What it does in a section, with its code. It has no method for the others than authorize and preacct.
    fn run_method(
        &self,
        alloc: Global,
        section: Section,
        lists: &mut Lists,
    ) -> Result<Code, NoMemory>
        ensures { IfOk result (λ code. (lists.new, code) ≡ realm_done self.now.realms self.now.format self.now.delimiter section lists.old) }
    {
        match section {
            Section::Authorize | Section::Preacct => self.name(alloc, lists),
            Section::Authenticate | Section::Session | Section::Accounting | Section::PostAuth => {
                Ok(Code::Noop)
            }
        }
    }
}

/// Whether the request has a Realm.
fn has_realm(lists: &Lists) -> bool
    ensures { result ≡ has_realm lists.now }
{
    lists.nth(ListName::Request, REALM, 0).is_some()
}

/// Sets Stripped-User-Name to the user, but for a realm that keeps names whole.
fn stripped(alloc: Global, found: &Found, lists: &mut Lists) -> Result<Code, NoMemory>
    ensures { IfOk result (λ code. (lists.new, code) ≡ stripped found.now lists.old) }
{
    if found.nostrip {
        return Ok(Code::Ok);
    }
    let user = found.user.as_slice();
    if set_text(alloc, lists, ListName::Request, STRIPPED_USER_NAME, user)? {
        Ok(Code::Ok)
    } else {
        Ok(Code::Fail)
    }
}

/// Sets Realm to the realm, and then Stripped-User-Name.
fn named(alloc: Global, found: &Found, lists: &mut Lists) -> Result<Code, NoMemory>
    ensures { IfOk result (λ code. (lists.new, code) ≡ named (Some found.now) lists.old) }
{
    if set_text(
        alloc,
        lists,
        ListName::Request,
        REALM,
        found.realm.as_slice(),
    )? {
        stripped(alloc, found, lists)
    } else {
        Ok(Code::Fail)
    }
}

impl Module for RealmModule {
    ghost meaning = { record {
      methods = λ m. realm_methods;
      edits = λ m. realm_edits;
      does = λ m dict method. done_to_lists (λ scope. realm_done m.realms m.format m.delimiter method scope.lists);
    } };

    fn methods(&self) -> MethodSet {
        MethodSet {
            methods: [true, false, false, true, false, false],
        }
    }

    fn call<W: World>(
        &self,
        alloc: Global,
        method: Section,
        scope: &mut Scope,
        _world: &mut W,
        _dict: &Dict,
    ) -> Result<Code, NoMemory> {
        self.run_method(alloc, method, &mut scope.lists)
    }

    ghost lawful = { λ m dict method situation. realm_is_lawful m.realms m.format m.delimiter method situation };
}
