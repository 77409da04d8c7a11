ghost use Rattle.rad_outside.specs.Moments.{IsInTime};
ghost use Rattle.rad_value.specs.Scope.{IsFresh, IsOf};

use crate::{Lists, Value};
use rad_outside::{Octets, Peer};
use rad_words::Code;

/// What a policy works on while it runs for one request.
#[derive(Drop)]
pub struct Scope {
    pub lists: Lists,
    /// What the last pattern that matched captured: the whole and up to eight parts.
    pub captures: [Option<Octets>; 9],
    /// The values of the loops that run, the outermost first; the other places are none.
    pub loops: [Option<Value>; 8],
    /// The code of the statement that ran last.
    pub last: Option<Code>,
    /// How many members of load-balance blocks were chosen so far.
    pub choices: u32,
    /// Who sent the request.
    pub from: Peer,
    /// Seconds since 1970, at most `LAST_MOMENT`.
    pub moment: u64,
    /// The random word of the request.
    pub luck: u64,
    /// The Request Authenticator (RFC 2865 section 3).
    pub authenticator: [u8; 16],
}

impl Scope {
    /// The scope of a request as its policy begins.
    pub fn new(lists: Lists, from: Peer, moment: u64, luck: u64, authenticator: [u8; 16]) -> Scope
        requires { IsInTime moment }
        ensures fresh { IsFresh result }
        ensures given { IsOf result lists from moment luck authenticator }
    {
        Scope {
            lists,
            captures: [None, None, None, None, None, None, None, None, None],
            loops: [None, None, None, None, None, None, None, None],
            last: None,
            choices: 0,
            from,
            moment,
            luck,
            authenticator,
        }
    }
}
