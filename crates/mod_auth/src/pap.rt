ghost use Rattle.std.specs.Prelude.{◌≡◌, ◌&&◌, true, false, replicate, IfOk};
ghost use Rattle.std.specs.Option.{option_copied};
ghost use Rattle.mod_lists.specs.Done.{done_to_lists};
ghost use Rattle.mod_auth.specs.Pap.{given_password, is_idle, authorized, authenticated, pap_done, pap_methods, auth_type_alone};
ghost use Rattle.mod_auth.specs.Lawful.{pap_is_lawful};

use crate::attributes::{AUTH_TYPE, USER_PASSWORD};
use crate::password::compared;
use crate::scheme::known_password;
use mod_base::{MethodSet, Module, World};
use mod_lists::set_text;
use rad_dict::Dict;
use rad_outside::{NoMemory, Octets};
use rad_value::{ListName, Lists, Scope};
use rad_words::{Code, Section};
use std::alloc::Global;

/// The kind `pap`: a password that the request carries is compared with the one that is known, after FreeRADIUS' rlm_pap(5).
#[derive(Drop)]
pub struct Pap {
    name: Octets,
}

impl Pap {
    /// An instance of this name, which it sets as Auth-Type.
    pub fn new(name: Octets) -> Pap
        ensures { result.name ≡ name }
    {
        Pap { name }
    }
}

/// The password that the request came with.
fn given_password(lists: &Lists) -> Option<&[u8]>
    ensures { option_copied result ≡ given_password lists.now }
{
    lists.first_text(ListName::Request, USER_PASSWORD)
}

/// Whether Auth-Type is set already, or there is nothing to compare.
fn is_idle(lists: &Lists) -> bool
    ensures { result ≡ is_idle lists.now }
{
    lists.nth(ListName::Control, AUTH_TYPE, 0).is_some()
        || given_password(lists).is_none()
        || known_password(lists).is_none()
}

/// What it does in authorize.
fn authorize(alloc: Global, name: &[u8], lists: &mut Lists) -> Result<Code, NoMemory>
    ensures { IfOk result (λ code. (lists.new, code) ≡ authorized name.now lists.old) }
{
    if is_idle(lists) {
        return Ok(Code::Noop);
    }
    if set_text(alloc, lists, ListName::Control, AUTH_TYPE, name)? {
        Ok(Code::Updated)
    } else {
        Ok(Code::Fail)
    }
}

/// What it answers in authenticate.
fn authenticate(alloc: Global, lists: &Lists) -> Result<Code, NoMemory>
    ensures { IfOk result (λ code. code ≡ authenticated lists.now) }
{
    let password = match given_password(lists) {
        None | Some([]) => return Ok(Code::Invalid),
        Some(password) => password,
    };
    match known_password(lists) {
        Some(known) => compared(alloc, password, known),
        None => Ok(Code::Fail),
    }
}

/// What it does in a section, with its code. It has no method for the others than authorize and authenticate.
fn run_method(
    alloc: Global,
    name: &[u8],
    section: Section,
    lists: &mut Lists,
) -> Result<Code, NoMemory>
    ensures { IfOk result (λ code. (lists.new, code) ≡ pap_done name.now section lists.old) }
{
    match section {
        Section::Authorize => authorize(alloc, name, lists),
        Section::Authenticate => authenticate(alloc, lists),
        Section::Session | Section::Preacct | Section::Accounting | Section::PostAuth => {
            Ok(Code::Noop)
        }
    }
}

impl Module for Pap {
    ghost meaning = { record {
      methods = λ m. pap_methods;
      edits = λ m. auth_type_alone;
      does = λ m dict method. done_to_lists (λ scope. pap_done m.name method scope.lists);
    } };

    fn methods(&self) -> MethodSet {
        MethodSet {
            methods: [true, true, false, false, false, false],
        }
    }

    fn call<W: World>(
        &self,
        alloc: Global,
        method: Section,
        scope: &mut Scope,
        _world: &mut W,
        _dict: &Dict,
    ) -> Result<Code, NoMemory> {
        run_method(alloc, self.name.as_slice(), method, &mut scope.lists)
    }

    ghost lawful = { λ m dict method situation. pap_is_lawful m.name method situation };
}
