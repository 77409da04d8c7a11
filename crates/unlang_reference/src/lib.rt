//! References of policies, as unlang(5) writes them behind `&` and in `%{..}`: `[list:]Attr[place]`. A reference is read
//! from its text under a dictionary, and names values of the three lists of a request: the definition `values_of` says
//! which, in order, and `text_of` what they are in print. Above it stand expansions, conditions and the statements of
//! policies, which know a reference by its list, its attribute and which of the attribute's values it means.
#![tactic(auto)]

mod laws;
mod reading;
mod reference;

pub use laws::written_references_are_read_back;
pub use reading::{NoReference, named_alone, reference_of};
pub use reference::{Reference, Which};
