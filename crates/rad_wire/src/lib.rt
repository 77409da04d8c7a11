//! RADIUS packets as lists of pairs: the pairs of a checked request, and the octets of a reply.
//! The one model is a function on lists: `pairs_of` from a packet's octets to its pairs, and `reply_octets` back, cut and
//! signed as RFC 2865 sections 3 and 5 have it.
//! Above it stand the policies, which make replies; nothing here knows one. The packets themselves are those of
//! `rad_packet`, whose public calls it passes on.
#![tactic(auto)]

mod accepting;
mod attribute_writing;
mod decoding;
mod draft;
mod laws;
mod proxy_state;
mod reply;
mod reply_fault;
mod reply_pairs;
mod request;
mod request_fault;
mod vendor;
mod wire_value;

pub use accepting::accepts_reply;
pub use decoding::decode;
pub use laws::{
    accepted_replies_have_no_fault, replies_are_accepted, replies_are_decoded, replies_are_packets,
    requests_are_decoded, requests_are_signed, vendor_parts_have_one_reading,
};
pub use rad_packet::{
    Checked, Client, DropCause, HideFault, RevealFault, attributes_have_one_reading,
    authentic_has_no_cause, check, hidden_passwords_are_revealed, hide,
    message_authenticators_vouch, reveal,
};
pub use reply::reply_bytes;
pub use reply_fault::ReplyFault;
pub use request::request_bytes;
pub use request_fault::RequestFault;
