//! The reply of a request by what became of it.

ghost use Rattle.std.specs.Prelude.{◌≡◌, IfOk};
ghost use Rattle.rad_packet.specs.Octets.{IsChecked};
ghost use Rattle.rad_wire.specs.Reply.{reply_octets};
ghost use Rattle.rad_policy.specs.Seen.{FitsDatagram};
ghost use Rattle.rad_policy.specs.Policy.{Replies};
ghost use Rattle.rad_site.specs.Request.{reply_to, IsOutcome};

use rad_access::{Verdict, response_of};
use rad_outside::NoMemory;
use rad_packet::Checked;
use rad_policy::Outcome;
use rad_value::Lists;
use rad_wire::reply_bytes;
use std::alloc::Global;
use std::sync::Arc;

/// The reply of a code to the request, of the reply list.
fn sent(
    alloc: Global,
    code: u8,
    lists: &Lists,
    request: &Checked,
    secret: &[u8],
) -> Result<Outcome, NoMemory>
    requires { IsChecked request.now }
    ensures reply { IfOk result (IsOutcome (Replies (reply_octets code lists.now.reply request.now.octets.now secret.now))) }
    ensures limit { IfOk result FitsDatagram }
{
    let reply = reply_bytes(alloc, code, lists, request, secret)?;
    Ok(Outcome::Sent(Arc::new(alloc, reply)?))
}

/// The reply of a request by what became of it: its whole reply list, by the code that the verdict and the control list make.
pub(crate) fn reply_to(
    alloc: Global,
    verdict: Verdict,
    lists: &Lists,
    request: &Checked,
    secret: &[u8],
) -> Result<Outcome, NoMemory>
    requires { IsChecked request.now }
    ensures reply { IfOk result (IsOutcome (reply_to lists.now verdict request.now.octets.now secret.now)) }
    ensures limit { IfOk result FitsDatagram }
{
    match response_of(lists, verdict) {
        Some(code) => sent(alloc, code, lists, request, secret),
        None => Ok(Outcome::Withheld),
    }
}
