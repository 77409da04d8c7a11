//! Conditions of policies, as unlang(5) writes them behind `if`: read into a flat list of steps, and evaluated over a
//! request's scope. Their model is a tree of atoms, which `!`, `&&` and `||` join, and in which a pattern is its text:
//! `condition_of` is the tree that a text says under a dictionary, if it says one, and `holds` what a tree says of a scope.
//! What a compiled pattern finds is a function of its text, so nothing compiled is left in what contracts say. Neither reading
//! nor evaluating recurses, so that a condition may nest as deep as its text goes. Above it stand the statements of policies.
#![tactic(auto)]

mod atom;
mod atom_reading;
mod condition;
mod cutting;
mod expansion;
mod fault;
mod groups;
mod laws;
mod looks;
mod operator;
mod patterns;
mod sides;
mod steps;
mod testing;
mod texts;
mod token_reading;
mod words;

pub use condition::Cond;
pub use fault::CondFault;
pub use laws::{
    and_binds_tighter_than_or, conditions_are_printed_as_they_are_written,
    faults_are_told_where_they_stand, written_conditions_are_read_back,
};
