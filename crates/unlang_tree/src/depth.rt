//! How deep a statement stands among blocks and policies.

ghost use Rattle.std.specs.Prelude.{◌≡◌, ◌∷◌, ◌++◌, OnOk, IfOk};

use rad_outside::{NoMemory, Octets};
use sqlite_items::Items;
use std::alloc::Global;

/// How many more blocks may be opened within one another, and the names of the policies that are open.
#[derive(Clone, Copy)]
pub struct DepthRef<'a> {
    pub levels: u32,
    pub entered: &'a [Octets],
}

/// Adds names at the end.
fn put_names(alloc: Global, names: &mut Items<Octets>, more: &[Octets]) -> Result<(), NoMemory>
    ensures { OnOk result (names.new ≡ names.old ++ more.now) }
{
    for one in more {
        names.push(Octets::of(alloc, one.as_slice())?)?;
    }
    Ok(())
}

/// The names of open policies with that of one more, which stands first.
pub(crate) fn with_name(
    alloc: Global,
    entered: &[Octets],
    name: &[u8],
) -> Result<Items<Octets>, NoMemory>
    ensures { IfOk result (λ names. names ≡ name.now ∷ entered.now) }
{
    let mut names = Items::new(alloc);
    names.push(Octets::of(alloc, name)?)?;
    put_names(alloc, &mut names, entered)?;
    Ok(names)
}
