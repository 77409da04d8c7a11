//! The actions that a group of a policy takes on the codes of its children, as unlang(5) has them.
//! Its model is one table: the default actions, a list of nine in the order of the codes.
//! Above it stand policies. The words that the table speaks of, codes and sections among them, are those of `rad_words`,
//! which it passes on.
#![tactic(auto)]

mod action_table;
mod default_rows;
mod group_kind;

pub use action_table::{Action, Actions, default_actions};
pub use group_kind::GroupKind;
pub use rad_words::{AttrId, Code, Kind, NameRow, Names, Section, Space};
