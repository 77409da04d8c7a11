use super::address::address_of;
use rad_outside::Peer;
use std::io;

/// Writes one line on standard error: what an adapter tried, on which path, and the system's words. Where that can't be
/// written, nothing is.
pub(super) fn tell<R: Eprint>(rt: &R, tried: &str, on: &str, error: &io::Error) {
    let _written = eprintln!(rt; "{tried} {on}: {error}");
}

/// The same of an address.
pub(super) fn tell_at<R: Eprint>(rt: &R, tried: &str, at: Peer, error: &io::Error) {
    let address = address_of(at);
    let _written = eprintln!(rt; "{tried} {address}: {error}");
}
