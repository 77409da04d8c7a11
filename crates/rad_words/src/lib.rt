//! The fixed words of a RADIUS server: the names of attributes by number, kinds of values, return codes, sections, and
//! tables of names and numbers.
//! Its one model is that of a table: a list of rows of a name and a number, no two of which are taken for one another.
//! Above it stand values, dictionaries, packets and policies.
#![tactic(auto)]

mod attributes;
mod codes;
mod names;
mod sections;

pub use attributes::{AttrId, Kind, Space};
pub use codes::Code;
pub use names::{NameRow, Names};
pub use sections::Section;
