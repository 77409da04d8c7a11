//! What the sections of a virtual server decide of an access request: authorize, authenticate, post-auth, and
//! Post-Auth-Type REJECT, and which packet answers it.
//! The one model is the decision: the policies of a site, a server's name and a request's situation to the situation that is
//! left, and whether the request is accepted, rejected or not answered.
//! Above it stand the generations of a site, which decode requests and make replies.
#![tactic(auto)]

mod access;
mod attributes;
mod laws;
mod policies;
mod post_auth;
mod reject_laws;
mod response;
mod verdict;

pub use laws::{
    challenges_let_requests_in, passwords_and_challenges_let_requests_in, passwords_let_requests_in,
};
pub use policies::Policies;
pub use reject_laws::rejected_replies_have_messages_and_what_reject_adds;
pub use response::response_of;
pub use verdict::Verdict;
