ghost use Rattle.std.specs.Prelude.{◌≡◌, true, false, IfOk};
ghost use Rattle.std.specs.Option.{option_copied};
ghost use Rattle.mod_lists.specs.Done.{done_to_lists};
ghost use Rattle.mod_auth.specs.Pap.{pap_methods, auth_type_alone};
ghost use Rattle.mod_auth.specs.Chap.{challenge_of, is_idle, authorized, compared, answered, authenticated, chap_done};
ghost use Rattle.mod_auth.specs.Lawful.{chap_is_lawful};

use crate::attributes::{AUTH_TYPE, CHAP_CHALLENGE, CHAP_PASSWORD, CLEARTEXT_PASSWORD};
use crate::compare::is_same;
use crate::password::verdict;
use md5::{Digest, Md5};
use mod_base::{MethodSet, Module, World};
use mod_lists::{first_octets, set_text};
use rad_dict::Dict;
use rad_outside::{NoMemory, Octets};
use rad_value::{ListName, Lists, Scope};
use rad_words::{Code, Section};
use std::alloc::Global;

/// The octets of a CHAP-Password: the CHAP Identifier and a digest (RFC 2865 section 5.3).
const CHAP_LENGTH: usize = 17;

/// The kind `chap`: the digest of a password and a challenge is compared with that of the one that is known, after RFC 1994
/// section 4.1.
#[derive(Drop)]
pub struct Chap {
    name: Octets,
}

impl Chap {
    /// An instance of this name, which it sets as Auth-Type.
    pub fn new(name: Octets) -> Chap
        ensures { result.name ≡ name }
    {
        Chap { name }
    }
}

/// The challenge: the request's first CHAP-Challenge, whole, or else the Request Authenticator.
fn challenge_of<'a>(lists: &'a Lists, authenticator: &'a [u8]) -> &'a [u8]
    ensures { result.now ≡ challenge_of lists.now authenticator.now }
{
    match first_octets(lists, ListName::Request, CHAP_CHALLENGE) {
        Some(challenge) => challenge,
        None => authenticator,
    }
}

/// Whether Auth-Type is set already, or the request has no CHAP-Password.
fn is_idle(lists: &Lists) -> bool
    ensures { result ≡ is_idle lists.now }
{
    lists.nth(ListName::Control, AUTH_TYPE, 0).is_some()
        || lists.nth(ListName::Request, CHAP_PASSWORD, 0).is_none()
}

/// What it does in authorize.
fn authorize(alloc: Global, name: &[u8], lists: &mut Lists) -> Result<Code, NoMemory>
    ensures { IfOk result (λ code. (lists.new, code) ≡ authorized name.now lists.old) }
{
    if is_idle(lists) {
        return Ok(Code::Noop);
    }
    if set_text(alloc, lists, ListName::Control, AUTH_TYPE, name)? {
        Ok(Code::Ok)
    } else {
        Ok(Code::Fail)
    }
}

/// Compares a CHAP-Password with the digest of its Identifier, the password and the challenge.
fn compared(given: &[u8], password: &[u8], challenge: &[u8]) -> Code
    ensures { result ≡ compared given.now password.now challenge.now }
{
    if given.len() != CHAP_LENGTH {
        return Code::Invalid;
    }
    let (identifier, digest) = given.split_at(1);
    let mut hasher = Md5::new();
    hasher.update(identifier);
    hasher.update(password);
    hasher.update(challenge);
    verdict(is_same(digest, hasher.finalize().as_slice()))
}

/// What it answers to a CHAP-Password and the password that is known.
fn answered(given: Option<&[u8]>, password: Option<&[u8]>, challenge: &[u8]) -> Code
    ensures { result ≡ answered (option_copied given.entry) (option_copied password.entry) challenge.now }
{
    match (given, password) {
        (Some(given), Some(password)) => compared(given, password, challenge),
        _ => Code::Invalid,
    }
}

/// What it answers in authenticate.
fn authenticate(lists: &Lists, authenticator: &[u8]) -> Code
    ensures { result ≡ authenticated authenticator.now lists.now }
{
    answered(
        first_octets(lists, ListName::Request, CHAP_PASSWORD),
        first_octets(lists, ListName::Control, CLEARTEXT_PASSWORD),
        challenge_of(lists, authenticator),
    )
}

/// What it does in a section, with its code. It has no method for the others than authorize and authenticate.
fn run_method(
    alloc: Global,
    name: &[u8],
    section: Section,
    authenticator: &[u8],
    lists: &mut Lists,
) -> Result<Code, NoMemory>
    ensures { IfOk result (λ code. (lists.new, code) ≡ chap_done name.now section authenticator.now lists.old) }
{
    match section {
        Section::Authorize => authorize(alloc, name, lists),
        Section::Authenticate => Ok(authenticate(lists, authenticator)),
        Section::Session | Section::Preacct | Section::Accounting | Section::PostAuth => {
            Ok(Code::Noop)
        }
    }
}

impl Module for Chap {
    ghost meaning = { record {
      methods = λ m. pap_methods;
      edits = λ m. auth_type_alone;
      does = λ m dict method. done_to_lists (λ scope. chap_done m.name method scope.authenticator scope.lists);
    } };

    fn methods(&self) -> MethodSet {
        MethodSet {
            methods: [true, true, false, false, false, false],
        }
    }

    fn call<W: World>(
        &self,
        alloc: Global,
        method: Section,
        scope: &mut Scope,
        _world: &mut W,
        _dict: &Dict,
    ) -> Result<Code, NoMemory> {
        run_method(
            alloc,
            self.name.as_slice(),
            method,
            &scope.authenticator,
            &mut scope.lists,
        )
    }

    ghost lawful = { λ m dict method situation. chap_is_lawful m.name method situation };
}
