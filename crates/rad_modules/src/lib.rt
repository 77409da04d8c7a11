//! The kinds of modules that a site may have, as one type: a call is handed on to the module of the kind.
//! The one model is the meaning of a module, kind by kind, with the attributes that it may edit.
//! Above it stand the building of modules from a configuration, and what a server's sections decide.
#![tactic(auto)]

mod site_module;

pub use site_module::SiteModule;
