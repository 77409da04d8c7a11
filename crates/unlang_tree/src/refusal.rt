//! Faults at their places.

ghost use Rattle.std.specs.Prelude.{◌≡◌, Err};
ghost use Rattle.unlang_tree.specs.Readings.{Gives, fault_at, one_more, one_deeper};

use crate::fault::TreeFault;
use rad_outside::Place;
use rad_text::place_at;
use std::alloc::Global;

/// What is wrong with a node, without the place.
#[derive(Clone, Copy, Debug, PartialEq, Eq)]
pub enum Wrong {
    NoSuchMethod,
    UnknownKeyword,
    BadAction,
    BadUpdate,
    BadCondition,
    BadPattern,
    BadExpansion,
    PolicyLoop,
    TooDeep,
    TooMany,
    NotBuilt,
}

fn fault_at(wrong: Wrong, place: Place) -> TreeFault
    ensures { result ≡ fault_at wrong place }
{
    match wrong {
        Wrong::NoSuchMethod => TreeFault::NoSuchMethod(place),
        Wrong::UnknownKeyword => TreeFault::UnknownKeyword(place),
        Wrong::BadAction => TreeFault::BadAction(place),
        Wrong::BadUpdate => TreeFault::BadUpdate(place),
        Wrong::BadCondition => TreeFault::BadCondition(place),
        Wrong::BadPattern => TreeFault::BadPattern(place),
        Wrong::BadExpansion => TreeFault::BadExpansion(place),
        Wrong::PolicyLoop => TreeFault::PolicyLoop(place),
        Wrong::TooDeep => TreeFault::TooDeep(place),
        Wrong::TooMany => TreeFault::TooMany(place),
        Wrong::NotBuilt => TreeFault::NotBuilt(place),
    }
}

/// Refuses what stands at a place.
pub(crate) fn refuse<T>(alloc: Global, place: &Place, wrong: Wrong) -> Result<T, TreeFault>
    ensures { Gives result (Err (fault_at wrong place.now)) }
{
    let place = place_at(alloc, place.file.as_slice(), place.line)?;
    Err(fault_at(wrong, place))
}

/// Refuses the 65,537th statement of a server.
#[tactic(auto, unfolding(crate::specs::Readings::one_more))]
pub(crate) fn one_more(alloc: Global, room: usize, place: &Place) -> Result<(), TreeFault>
    ensures { Gives result (one_more room place.now) }
{
    if room > 0 {
        Ok(())
    } else {
        refuse(alloc, place, Wrong::TooMany)
    }
}

/// Refuses the 33rd block within others.
#[tactic(auto, unfolding(crate::specs::Readings::one_deeper))]
pub(crate) fn one_deeper(alloc: Global, levels: u32, place: &Place) -> Result<(), TreeFault>
    ensures { Gives result (one_deeper levels place.now) }
{
    if levels > 0 {
        Ok(())
    } else {
        refuse(alloc, place, Wrong::TooDeep)
    }
}
