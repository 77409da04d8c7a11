//! Proxy-State: what proxies put into a request, and find again in the reply (RFC 2865 section 5.33).

ghost use Rattle.std.specs.Prelude.{◌≡◌, ◌==◌, ◌++◌, ◌≤◌, [], length, OnOk, if◌then◌else◌};
ghost use Rattle.rad_packet.specs.Octets.{IsChecked, proxy_states};

use rad_outside::NoMemory;
use rad_packet::{Checked, Front, split_front};

/// The type of Proxy-State.
const PROXY_STATE: u8 = 33;

/// How many octets the request's Proxy-State attributes have.
pub(crate) fn proxy_states_len(request: &Checked) -> usize
    requires { IsChecked request.now }
    ensures value { result ≡ length (proxy_states request.now.octets.now) }
    ensures bound { result ≤ 4076 }
{
    let mut count = 0;
    let mut rest = request.attributes();
    while let Some(front) = split_front(rest) {
        if front.kind == PROXY_STATE {
            count += front.octets.len();
        }
        rest = front.rest;
    }
    count
}

/// Appends the request's Proxy-State attributes, unchanged and in order.
pub(crate) fn push_proxy_states(reply: &mut Vec<u8>, request: &Checked) -> Result<(), NoMemory>
    requires { IsChecked request.now }
    ensures { OnOk result (reply.new.items ≡ reply.old.items ++ proxy_states request.now.octets.now) }
{
    let mut rest = request.attributes();
    while let Some(front) = split_front(rest) {
        push_proxy_state(reply, &front)?;
        rest = front.rest;
    }
    Ok(())
}

/// Appends the attribute if it is a Proxy-State.
fn push_proxy_state(reply: &mut Vec<u8>, front: &Front) -> Result<(), NoMemory>
    ensures { OnOk result (reply.new.items
        ≡ reply.old.items ++ (if front.now.kind == 33 then front.now.octets.now else [])) }
{
    if front.kind == PROXY_STATE {
        reply.extend_from_slice(front.octets)?;
    }
    Ok(())
}
