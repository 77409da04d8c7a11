//! The parts of a site from the tree of its configuration: settings, clients, realms, modules with their files, servers with
//! their listener. Each is read as its blocks say, or its first fault is named at its place.
//! The one model of each part is what the nodes of the configuration are read as.
//! Above it stand the generations of a site, which put the parts together.
#![tactic(auto)]

mod client;
mod codes;
mod fault;
mod instances;
mod item;
mod laws;
mod listen;
mod modules;
mod numbers;
mod path;
mod realm_settings;
mod realms;
mod refusal;
mod servers;
mod settings;
mod text;
mod top_settings;
mod users;

pub use client::client_at;
pub use fault::BuildFault;
pub use instances::Modules;
pub use item::is_block;
pub use laws::realms_are_what_their_blocks_say;
pub use modules::modules_in;
pub use refusal::{refuse, refuse_setting};
pub use servers::{Listener, servers_in};
pub use settings::Settings;
pub use text::fault_text;
pub use top_settings::settings_in;
