//! The modules that check passwords: `pap` (RFC 2865 section 5.2), with passwords that are known in clear or as digests, and
//! `chap` (RFC 1994).
//! The one model is what each does to the lists of a request and what it answers, a function of the scope. Above it stand the
//! modules of a site.
#![tactic(auto)]

mod attributes;
mod chap;
mod compare;
mod laws;
mod pap;
mod password;
mod scheme;

pub use chap::Chap;
pub use laws::{chap_lets_in_by_the_digest, pap_lets_in_by_the_password};
pub use pap::Pap;
