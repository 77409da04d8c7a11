ghost use Rattle.std.specs.Prelude.{◌≡◌, ◌<◌, ◌^◌, []};
ghost use Rattle.rad_serve.specs.Counting.{tally_of, with_request, with_load, counts_between};
ghost use Rattle.rad_serve.specs.Installing.{is_present_by};

use rad_core::Installed;
use rad_site::BuildFault;

/// What a run counts: the datagrams that it served, the replies that they got, the generations that it loaded beside
/// the one at the start, and the loads that were refused.
#[derive(Clone, Copy, Debug, PartialEq, Eq)]
pub struct Counts {
    pub requests: u64,
    pub replies: u64,
    pub reloads: u64,
    pub refused: u64,
}

/// What a whole history counts: requests, replies, loads that were made the present generation, and loads that were
/// refused.
#[derive(Clone, Copy, Debug, PartialEq, Eq)]
pub struct Tally {
    pub requests: u64,
    pub replies: u64,
    pub installs: u64,
    pub refused: u64,
}

impl Tally {
    /// The tally of a history without an entry.
    pub(crate) fn none() -> Tally
        ensures { result ≡ tally_of [] }
    {
        Tally {
            requests: 0,
            replies: 0,
            installs: 0,
            refused: 0,
        }
    }

    /// With one request more, and its reply if it got one.
    pub(crate) fn with_request(self, is_replied: bool) -> Tally
        requires requests { self.requests < 2 ^ 62 }
        requires replies { self.replies < 2 ^ 62 }
        ensures { result ≡ with_request is_replied self }
    {
        Tally {
            requests: self.requests + 1,
            replies: self.replies + u64::from(is_replied),
            ..self
        }
    }

    /// With one load more, which was made the present generation or refused.
    pub(crate) fn with_load(self, is_present: bool) -> Tally
        requires installs { self.installs < 2 ^ 62 }
        requires refused { self.refused < 2 ^ 62 }
        ensures { result ≡ with_load is_present self }
    {
        if is_present {
            Tally {
                installs: self.installs + 1,
                ..self
            }
        } else {
            Tally {
                refused: self.refused + 1,
                ..self
            }
        }
    }
}

/// The counts of a run, from the tallies of the history before it, behind its first load and by now.
pub fn counts_between(before: Tally, loaded: Tally, now: Tally) -> Counts
    ensures { result ≡ counts_between before loaded now }
{
    Counts {
        requests: now.requests.saturating_sub(before.requests),
        replies: now.replies.saturating_sub(before.replies),
        reloads: now.installs.saturating_sub(loaded.installs),
        refused: now.refused.saturating_sub(before.refused),
    }
}

/// Whether a load is the present generation now.
pub(crate) fn is_present(answer: &Installed<BuildFault>) -> bool
    ensures { result ≡ is_present_by answer.now }
{
    match answer {
        Installed::Generation(_) => true,
        Installed::Refused(_) => false,
        Installed::ListenerGone(_) => false,
    }
}
