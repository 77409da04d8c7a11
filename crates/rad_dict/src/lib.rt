//! Dictionaries: the names, numbers and kinds of attributes, and the names of their values. The one
//! model is `Dict`, seen as the list of its attributes and the list of its named values, in the order in
//! which they were defined; each look-up is the first row that fits, names compared without regard to
//! ASCII case. Above it stand packets, texts of pairs and policies, which look names and kinds up here.
#![tactic(auto)]

mod attr_rows;
mod base_attributes;
mod base_values;
mod change;
mod definitions;
mod dictionary;
mod fault;
mod including;
mod keys;
mod laws;
mod line;
mod line_words;
mod name_forms;
mod reading;
mod search;
mod step;
mod value_rows;
mod vendors;

pub use definitions::{AttrDef, ValueDef};
pub use dictionary::Dict;
pub use fault::DictFault;
pub use laws::written_dictionaries_are_read_back;
