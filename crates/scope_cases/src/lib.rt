//! How cases write the pairs of a scope, for the programs `*_cases` whose cases have one. It stands beside `shared_cases`, which
//! knows nothing of pairs, so that programs whose cases have none don't stand on dictionaries.
//! The model is none: these are tests' tools without contracts.
//! Above it stand the programs that try expansions and conditions.
#![tactic(auto)]

mod given;

pub use given::{NoScope, pairs_of, put};
