//! Generations of a site: its clients, its modules and its virtual servers, built from its folder, and what they answer to
//! a request.
//! The one model is the site: what the folder is built to, or its first fault, and the reply that the server's sections
//! mean for a request.
//! Above it stands the server, which installs generations and asks them through the trait `Policy`.
#![tactic(auto)]

mod bare_world;
mod build;
mod generation;
mod laws;
mod policy;
mod reply;

pub use generation::Generation;
pub use laws::{access_accepts_had_the_password, clients_are_what_their_blocks_say};
pub use rad_access::{
    challenges_let_requests_in, passwords_and_challenges_let_requests_in,
    passwords_let_requests_in, rejected_replies_have_messages_and_what_reject_adds,
};
pub use rad_build::{BuildFault, Settings, fault_text, realms_are_what_their_blocks_say};
pub use rad_modules::SiteModule;
pub use unlang_tree::TreeFault;
