//! Filters of lists of pairs: which pairs of a list stay, and the module `attr_filter`, after FreeRADIUS' rlm_attr_filter(5).
//! The one model is a test of pairs: a list that is sifted has the pairs that stay, in order, and the other lists are as they
//! were. The filter of a key is such a test, made of the entries of a filter file.
//! Above it stand the modules of a site, and what a site keeps of a rejected request's reply.
#![tactic(auto)]

mod attr_filter;
mod filter;
mod laws;
mod rules;
mod sieve;

pub use attr_filter::AttrFilter;
pub use laws::filters_never_add_but_by_set;
pub use sieve::{Sieve, sift};
