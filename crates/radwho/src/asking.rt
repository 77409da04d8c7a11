//! What a command line asks for.

ghost use Rattle.std.specs.Prelude.{◌≡◌, map, string_bytes, IfOk};
ghost use Rattle.std.specs.Option.{option_map};
ghost use Rattle.radwho.specs.Request.{nas_in, path_in, wanted_of, request};

use crate::wanted::Wanted;
use rad_args::Arguments;
use rad_outside::{NoMemory, Octets};
use rad_text::address_of;
use std::alloc::Global;

/// The NAS that is wanted, or none; None where the text is no address.
fn nas_in(text: Option<&[u8]>) -> Option<Option<u32>>
    ensures { result ≡ nas_in (option_map (λ t. t.now) text.entry) }
{
    match text {
        Some(text) => Some(Some(address_of(text)?)),
        None => Some(None),
    }
}

/// The path of the log.
#[tactic(auto, unfolding(crate::specs::Request::path_in))]
fn path_in(alloc: Global, path: Option<&[u8]>) -> Result<Octets, NoMemory>
    ensures { IfOk result (λ octets. octets ≡ path_in (option_map (λ t. t.now) path.entry)) }
{
    match path {
        Some(path) => Octets::of(alloc, path),
        None => Octets::of(alloc, b"radutmp.log"),
    }
}

/// The user that is wanted.
fn user_in(alloc: Global, user: Option<&[u8]>) -> Result<Option<Octets>, NoMemory>
    ensures { IfOk result (λ octets. octets ≡ option_map (λ t. t.now) user.entry) }
{
    match user {
        Some(user) => Ok(Some(Octets::of(alloc, user)?)),
        None => Ok(None),
    }
}

/// What the items of a command line ask for.
#[tactic(auto, unfolding(crate::specs::Request::wanted_of))]
fn wanted_of(alloc: Global, arguments: &Arguments) -> Result<Option<Wanted>, NoMemory>
    ensures { IfOk result (λ wanted. wanted ≡ wanted_of arguments.now) }
{
    if arguments.plain(0).is_some() {
        return Ok(None);
    }
    match nas_in(arguments.value(b'N')) {
        Some(nas) => Ok(Some(Wanted {
            is_raw: arguments.has(b'r'),
            user: user_in(alloc, arguments.value(b'u'))?,
            nas,
            path: path_in(alloc, arguments.value(b'F'))?,
        })),
        None => Ok(None),
    }
}

/// What words ask for, or none where they are refused.
#[tactic(auto, unfolding(crate::specs::Request::request))]
pub(crate) fn request(alloc: Global, words: &[String]) -> Result<Option<Wanted>, NoMemory>
    ensures { IfOk result (λ wanted. wanted ≡ request (map string_bytes words.now)) }
{
    match Arguments::read(alloc, b"rns", b"uNF", words)? {
        Some(arguments) => wanted_of(alloc, &arguments),
        None => Ok(None),
    }
}
