//! A generation from the tree of its configuration, or the first fault at its place.

mod dictionary;
mod policies;
mod site;

pub(crate) use dictionary::dict_at;
pub(crate) use site::{CONF, site_of};
