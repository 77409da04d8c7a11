//! The words of a command line.

ghost use Rattle.std.specs.Prelude.{◌≡◌, ◌≤◌, IfOk, List, ℕ, map, string_bytes, length, codes};
ghost use Rattle.std.specs.Option.{option_copied, option_map};
ghost use Rattle.std.specs.Str.{bytes_eq};
ghost use Rattle.rad_args.specs.declared.item.Item.{Item};
ghost use Rattle.radclient.specs.Plans.{line_as, seen_plan};
ghost use Rattle.radclient.specs.Words.{asked_by, file_or, host_len, host_of, kind_of, line_of, line_of_items, number_or, port_for, port_of, secret_of, server_of};

use crate::asked::{Asked, Kind};
use rad_args::{Arguments, number_in};
use rad_outside::{NoMemory, Octets, Peer};
use rad_text::address_of;
use std::alloc::Global;

/// `auth` or `acct`.
fn kind_of(word: &[u8]) -> Option<Kind>
    ensures { result ≡ kind_of word.now }
{
    match word {
        b"auth" => Some(Kind::Auth),
        b"acct" => Some(Kind::Acct),
        _ => None,
    }
}

/// The port of a server that listens for these requests, where none is named.
fn port_for(kind: Kind) -> u16
    ensures { result ≡ port_for kind }
{
    match kind {
        Kind::Auth => 1812,
        Kind::Acct => 1813,
    }
}

/// How many octets stand before the first colon.
#[tactic(auto, unfolding(crate::specs::Words::host_len))]
fn host_len(word: &[u8]) -> usize
    ensures length { result ≡ host_len word.now }
    ensures within { result ≤ length word.now }
{
    let mut len = 0;
    let mut rest = word;
    while let Some((octet, after)) = rest.split_first() {
        if *octet == b':' {
            break;
        }
        len += 1;
        rest = after;
    }
    len
}

/// Whether the word is `localhost`.
fn is_localhost(word: &[u8]) -> bool
    ensures { result ≡ bytes_eq word.now (codes "localhost") }
{
    word == b"localhost".as_slice()
}

/// An address, or `localhost`, which is 127.0.0.1.
fn host_of(word: &[u8]) -> Option<u32>
    ensures { result ≡ host_of word.now }
{
    if is_localhost(word) {
        Some(2_130_706_433)
    } else {
        address_of(word)
    }
}

/// A port behind a colon, or this one where nothing stands there.
fn port_of(port: u16, word: &[u8]) -> Option<u16>
    ensures { result ≡ port_of port word.now }
{
    match word {
        [] => Some(port),
        [_, digits @ ..] => {
            let number = number_in(1, 65535, digits)?;
            if number < 65536 {
                Some(number as u16)
            } else {
                None
            }
        }
    }
}

/// `SERVER[:PORT]`
#[tactic(auto, unfolding(crate::specs::Words::server_of))]
fn server_of(port: u16, word: &[u8]) -> Option<Peer>
    ensures { result ≡ server_of port word.now }
{
    let (host, rest) = word.split_at(host_len(word));
    let addr = host_of(host)?;
    let port = port_of(port, rest)?;
    Some(Peer { addr, port })
}

/// A secret of 1 to 128 octets.
fn secret_of(word: &[u8]) -> Option<&[u8]>
    ensures { option_copied result ≡ secret_of word.now }
{
    if 1 <= word.len() && word.len() <= 128 {
        Some(word)
    } else {
        None
    }
}

/// The number of a letter's value in its range, or this one where the letter isn't given.
fn number_or(default: u32, most: u32, value: Option<&[u8]>) -> Option<u32>
    ensures { result ≡ number_or default most (option_copied value.entry) }
{
    match value {
        None => Some(default),
        Some(value) => number_in(1, most, value),
    }
}

/// The file of a letter's value, or standard input where the letter isn't given.
fn file_or(value: Option<&[u8]>) -> &[u8]
    ensures { result.now ≡ file_or (option_copied value.entry) }
{
    match value {
        None => b"-",
        Some(value) => value,
    }
}

/// What a command line asks for, lent by its words.
#[derive(Clone, Copy)]
pub(crate) struct Plan<'a> {
    server: Peer,
    kind: Kind,
    secret: &'a [u8],
    count: u32,
    tries: u32,
    waits: u32,
    quiet: bool,
    shown: bool,
    pub(crate) file: &'a [u8],
}

/// What three plain words ask for, with the letters.
#[tactic(auto, unfolding(crate::specs::Words::asked_by))]
fn plan_by<'a>(
    given: &'a Arguments,
    server: &[u8],
    kind: &[u8],
    secret: &'a [u8],
) -> Option<Plan<'a>>
    ensures { option_map seen_plan result ≡ asked_by given.now server.now kind.now secret.now }
{
    let kind = kind_of(kind)?;
    let server = server_of(port_for(kind), server)?;
    let secret = secret_of(secret)?;
    let count = number_or(1, 10_000, given.value(b'c'))?;
    let tries = number_or(10, 100, given.value(b'r'))?;
    let waits = number_or(3, 3_600, given.value(b't'))?;
    Some(Plan {
        server,
        kind,
        secret,
        count,
        tries,
        waits,
        quiet: given.has(b'q'),
        shown: given.has(b'x'),
        file: file_or(given.value(b'f')),
    })
}

/// What a command line asks for, lent by its words, or none where they are others.
#[tactic(auto, unfolding(crate::specs::Words::line_of_items))]
fn plan_of(given: &Arguments) -> Option<Plan<'_>>
    ensures { option_map seen_plan result ≡ line_of_items given.now }
{
    let server = given.plain(0)?;
    let kind = given.plain(1)?;
    let secret = given.plain(2)?;
    if given.plain(3).is_some() {
        return None;
    }
    plan_by(given, server, kind, secret)
}

/// What a command line asks for, and the file that it names.
#[derive(Drop)]
pub(crate) struct Order {
    pub(crate) asked: Asked,
    pub(crate) file: Octets,
}

/// The same that owns its octets.
fn owned(alloc: Global, plan: Plan) -> Result<Order, NoMemory>
    ensures { IfOk result (λ line. line_as line ≡ seen_plan plan.entry) }
{
    let file = Octets::of(alloc, plan.file)?;
    Ok(Order {
        asked: Asked {
            server: plan.server,
            kind: plan.kind,
            secret: Octets::of(alloc, plan.secret)?,
            count: plan.count,
            tries: plan.tries,
            waits: plan.waits,
            quiet: plan.quiet,
            shown: plan.shown,
        },
        file,
    })
}

/// What the words of a command line ask for, or none where they are others.
pub(crate) fn order_of(alloc: Global, words: &[String]) -> Result<Option<Order>, NoMemory>
    ensures { IfOk result (λ line. option_map line_as line ≡ line_of (map string_bytes words.now)) }
{
    match Arguments::read(alloc, b"xq", b"fcrt", words)? {
        None => Ok(None),
        Some(given) => match plan_of(&given) {
            None => Ok(None),
            Some(plan) => Ok(Some(owned(alloc, plan)?)),
        },
    }
}
