//! An index of a list: the places at which a key stands, found without a look at the others.
//! The one model is the list of keys, one for each row, in order; a search among a key's places is a search of all rows
//! wherever what is searched for has that key.
//! Above it stand the tables of dictionaries and of clients, which keep their rows in order beside an index of each key.
#![tactic(auto)]

mod index;

pub use index::Index;
