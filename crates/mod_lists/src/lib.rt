//! What the kinds of modules have in common that work on the lists of a request alone, and call no device.
//! The one model is a function from the scope to the lists and a code: what a module does to a situation is that its lists
//! change so, and nothing else does. Above it stand those kinds, as `pap`, `chap` and `realm`.
#![tactic(auto)]

mod edits;
mod values;

pub use edits::set_text;
pub use values::{first_octets, octets_of};
