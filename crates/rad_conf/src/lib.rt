//! The text of a site's configuration as a tree of blocks, pairs and names, each with its place, or its first fault.
//! The one model is the tree: a configuration is seen as the list of its nodes, and `conf_at` says which tree or fault the files have.
//! Above it stand the readers of settings and policies, which go over the tree and know nothing of its text.
#![tactic(auto)]

mod condition;
mod fault;
mod growth;
mod including;
mod item;
mod laws;
mod lines;
mod mark;
mod reading;
pub mod sign;
mod source;
mod spelling;
mod tree;
mod variable;
mod word;

pub use fault::ConfFault;
pub use laws::{
    configurations_are_read_as_they_are_written, lines_are_read_as_they_are_written,
    quoted_words_are_read_back, words_are_read_as_they_are_spelled,
};
pub use reading::{path_of, read_conf};
pub use spelling::{Spelling as QuotedSpelling, push_escape};
pub use tree::{Conf, Item, Node, NodeList, Quote, Word};
pub use word::quoted_len;
