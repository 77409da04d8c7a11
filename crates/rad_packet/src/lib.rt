//! RADIUS packets as octets: a datagram to a checked packet, or the first cause to drop it; attributes one after another;
//! the digests that sign a packet; and hidden passwords.
//! The one model is the list of octets: a packet is well formed where its attributes' octets, joined, are its rest
//! (RFC 2865 sections 3 and 5), and each cause of a drop is one sentence over the whole datagram.
//! Above it stand `rad_wire`, which knows pairs, and the core, which drops or takes a datagram; nothing here knows a policy.
#![tactic(auto)]

mod attributes;
mod block;
mod cause;
mod checking;
mod client;
mod hiding;
mod hmac;
mod laws;
mod signatures;

pub use attributes::{Front, are_attributes, split_front};
pub use cause::DropCause;
pub use checking::{Checked, LONGEST_PACKET, check};
pub use client::Client;
pub use hiding::{
    HideFault, RevealFault, carried, hidden_passwords_are_revealed, hide, is_hidden_length, reveal,
    revealed,
};
pub use laws::{attributes_have_one_reading, authentic_has_no_cause, message_authenticators_vouch};
pub use signatures::{accounting_authenticator, digest_with, is_intact, message_authenticator};
