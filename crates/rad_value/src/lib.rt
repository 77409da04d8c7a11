//! Values and pairs of attributes, and the three lists of pairs that a request's policy reads and edits:
//! the request's, the reply's and the control list. The one model is `Lists`, seen as three lists of
//! pairs; an edit is a function of such a list, and the code edits in place. Above it stand packets,
//! texts of pairs, policies and modules, which know the lists by this model alone.
#![tactic(auto)]

mod comparison;
mod edits;
mod laws;
mod listed;
mod pair_lists;
mod scope;
mod values;

pub use comparison::{Cmp, compare};
pub use edits::{Edit, EditFault, EditOp, ListName, Updated};
pub use laws::edits_have_their_meaning;
pub use pair_lists::Lists;
pub use scope::Scope;
pub use values::{Pair, Value};
