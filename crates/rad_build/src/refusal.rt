//! Faults at their places.

ghost use Rattle.std.specs.Prelude.{◌≡◌, IfOk, Err};
ghost use Rattle.rad_build.specs.Nodes.{Gives, refused, bad_setting};

use crate::fault::BuildFault;
use rad_outside::{NoMemory, Octets, Place};
use std::alloc::Global;
use unlang_tree::TreeFault;

/// A copy of a place.
fn copy_of(alloc: Global, place: &Place) -> Result<Place, NoMemory>
    ensures { IfOk result (λ copy. copy ≡ place.now) }
{
    Ok(Place {
        file: Octets::of(alloc, place.file.as_slice())?,
        line: place.line,
    })
}

/// Refuses what isn't built at a place.
pub fn refuse<T>(alloc: Global, place: &Place) -> Result<T, BuildFault>
    ensures { Gives result (refused place.now) }
{
    let place = copy_of(alloc, place)?;
    Err(BuildFault::Tree(TreeFault::NotBuilt(place)))
}

/// Refuses a setting out of its form, or a thing that must not stand there, by its word.
pub fn refuse_setting<T>(alloc: Global, place: &Place, name: &[u8]) -> Result<T, BuildFault>
    ensures { Gives result (bad_setting place.now name.now) }
{
    let place = copy_of(alloc, place)?;
    let name = Octets::of(alloc, name)?;
    Err(BuildFault::BadSetting(place, name))
}

/// Refuses a module of a kind that there isn't.
pub fn unknown_module<T>(alloc: Global, place: &Place, kind: &[u8]) -> Result<T, BuildFault>
    ensures { Gives result (Err (BuildFault.UnknownModule place.now kind.now)) }
{
    let place = copy_of(alloc, place)?;
    let kind = Octets::of(alloc, kind)?;
    Err(BuildFault::UnknownModule(place, kind))
}
