//! Texts of values and of pairs, as FreeRADIUS' dictionaries, users(5) files and radclient(1) write them:
//! printed, and read back with the first fault and its place. There is no state: `value_text` and `pair_text`
//! say what is printed, `value_of` and `items_of` what is read, each under a dictionary's model. Above it
//! stand users files, expansions, conditions and radclient.
#![tactic(auto)]

mod attr_reading;
mod fault;
mod items;
mod laws;
mod operators;
mod pair_reading;
mod printing;
mod value_reading;
mod words;

pub use attr_reading::{AttrKind, attr_by_name};
pub use fault::{NoValue, PairFault, ValueFault};
pub use items::{Item, ItemList, PairOp};
pub use laws::printed_pairs_are_read_back;
pub use pair_reading::{
    is_missing, operator_of, read_pairs, read_plain_pairs, separated, value_behind,
};
pub use printing::{print_pair, print_value, put_plain};
pub use rad_text::{Spot, address_of};
pub use value_reading::{read_value, value_of};
pub use words::{name_len, word_at};
