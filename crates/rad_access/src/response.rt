//! The code of a reply.

ghost use Rattle.std.specs.Prelude.{◌≡◌};
ghost use Rattle.std.specs.Option.{option_copied};
ghost use Rattle.rad_access.specs.Responses.{asked_by, code_asked, code_for, response_of};

use crate::attributes::RESPONSE_PACKET_TYPE;
use crate::verdict::Verdict;
use rad_value::{ListName, Lists};

/// The code of an Access-Accept, of an Access-Reject and of an Access-Challenge (RFC 2865 section 4).
const ACCEPT: u8 = 2;

const REJECT: u8 = 3;

const CHALLENGE: u8 = 11;

/// What a Response-Packet-Type asks for.
#[derive(Clone, Copy, Debug, PartialEq, Eq)]
pub enum Asked {
    /// The reply of the verdict.
    Usual,
    /// An Access-Challenge.
    Challenge,
    /// No reply.
    Nothing,
}

/// What the text of a Response-Packet-Type asks for, in any case of its letters.
fn asked_by(name: Option<&[u8]>) -> Asked
    ensures { result ≡ asked_by (option_copied name.entry) }
{
    let Some(name) = name else {
        return Asked::Usual;
    };
    if name.eq_ignore_ascii_case(b"Do-Not-Respond") {
        return Asked::Nothing;
    }
    if name.eq_ignore_ascii_case(b"Access-Challenge") {
        return Asked::Challenge;
    }
    Asked::Usual
}

/// The code of a reply, for which another is asked or not.
fn code_asked(usual: u8, asked: Asked) -> Option<u8>
    ensures { result ≡ code_asked usual asked }
{
    match asked {
        Asked::Usual => Some(usual),
        Asked::Challenge => Some(CHALLENGE),
        Asked::Nothing => None,
    }
}

/// The code of a verdict's reply.
fn code_for(verdict: Verdict, asked: Asked) -> Option<u8>
    ensures { result ≡ code_for verdict asked }
{
    match verdict {
        Verdict::Accept => code_asked(ACCEPT, asked),
        Verdict::Reject => code_asked(REJECT, asked),
        Verdict::Withhold => None,
    }
}

/// The code of the reply that a request's lists and verdict make: by the first Response-Packet-Type of the control list.
pub fn response_of(lists: &Lists, verdict: Verdict) -> Option<u8>
    ensures { result ≡ response_of lists.now verdict }
{
    let name = lists.first_text(ListName::Control, RESPONSE_PACKET_TYPE);
    code_for(verdict, asked_by(name))
}
