//! An entry of a users file.

use rad_outside::Octets;
use rad_pairs::ItemList;

/// An entry of a users file, as users(5) has it: its name, the check items behind the name, the reply items of the
/// indented lines below, and the number of its first line, counted from 1.
#[derive(Debug, Drop)]
pub struct Entry {
    pub name: Octets,
    pub checks: ItemList,
    pub replies: ItemList,
    pub line: u32,
}
