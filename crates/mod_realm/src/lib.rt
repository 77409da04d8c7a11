//! The module `realm`, after FreeRADIUS' rlm_realm(5): the realm of a user's name is found in it, as `user@realm`.
//! The one model is a list of realms, no two of one name, case aside, and what the module does to the lists of a request with
//! them. Above it stand the modules of a site.
#![tactic(auto)]

mod attributes;
mod fault;
mod held;
mod laws;
mod parting;
mod realm_module;
mod realms;

pub use fault::RealmFault;
pub use laws::{names_are_parted_at_the_delimiter, users_of_a_realm_are_named};
pub use parting::RealmFormat;
pub use realm_module::RealmModule;
pub use realms::{Realm, Realms};
