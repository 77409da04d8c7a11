//! What a change does to one part: a part that it leaves is shared, and another is built beside it.

ghost use Rattle.std.specs.Prelude.{◌≡◌, IfOk, filter};
ghost use Rattle.std.specs.Arc.{arc_value};
ghost use Rattle.rad_sessions.specs.Listed.{begun_again, ended, is_elsewhere, renewed_at};
ghost use Rattle.rad_sessions.specs.Parts.{after_in, begun_in};

use crate::change::Change;
use crate::listed::Listed;
use crate::part::part_of;
use crate::session::Session;
use rad_outside::NoMemory;
use std::alloc::Global;
use std::sync::Arc;

/// The part of a number after a change.
#[tactic(auto, unfolding(crate::specs::Listed::after))]
pub(crate) fn part_after(
    alloc: Global,
    number: usize,
    part: &Arc<Listed>,
    change: &Change,
) -> Result<Arc<Listed>, NoMemory>
    ensures { IfOk result (λ next. arc_value next ≡ after_in number (arc_value part.now) change.now) }
{
    match change {
        Change::Begin(session) => begun_in(alloc, number, part, session),
        Change::Renew { nas, port, framed } => renewed(alloc, part, (*nas, *port), *framed),
        Change::End { nas, port } => ended(alloc, part, *nas, *port),
        Change::Clear { nas } => cleared(alloc, part, *nas),
    }
}

/// The part after a session begins, which stands in its user's part and in no other.
fn begun_in(
    alloc: Global,
    number: usize,
    part: &Arc<Listed>,
    session: &Session,
) -> Result<Arc<Listed>, NoMemory>
    ensures { IfOk result (λ next. arc_value next ≡ begun_in number session.now (arc_value part.now)) }
{
    if part_of(session.user.as_slice()) != number {
        return ended(alloc, part, session.nas, session.port);
    }
    let mut next = part.copy()?;
    next.begin(alloc, session.copy(alloc)?)?;
    Ok(Arc::new(alloc, next)?)
}

/// The part in which the session at a place has another address of its user.
fn renewed(
    alloc: Global,
    part: &Arc<Listed>,
    place: (u32, u32),
    framed: u32,
) -> Result<Arc<Listed>, NoMemory>
    ensures { IfOk result (λ next. arc_value next ≡ begun_again (renewed_at place framed (arc_value part.now)) (arc_value part.now)) }
{
    let (nas, port) = place;
    if part.at(nas, port).is_none() {
        return Ok(Arc::try_clone(part)?);
    }
    let mut next = part.copy()?;
    next.renew(alloc, nas, port, framed)?;
    Ok(Arc::new(alloc, next)?)
}

/// The part without the session at a place.
#[tactic(auto, using(crate::proofs::Order::ended_none))]
fn ended(alloc: Global, part: &Arc<Listed>, nas: u32, port: u32) -> Result<Arc<Listed>, NoMemory>
    ensures { IfOk result (λ next. arc_value next ≡ ended (nas, port) (arc_value part.now)) }
{
    if part.at(nas, port).is_none() {
        return Ok(Arc::try_clone(part)?);
    }
    let mut next = part.copy()?;
    next.end(nas, port);
    Ok(Arc::new(alloc, next)?)
}

/// The part without the sessions of a NAS.
fn cleared(alloc: Global, part: &Arc<Listed>, nas: u32) -> Result<Arc<Listed>, NoMemory>
    ensures { IfOk result (λ next. arc_value next ≡ filter (is_elsewhere nas) (arc_value part.now)) }
{
    let mut next = part.copy()?;
    next.clear(nas);
    Ok(Arc::new(alloc, next)?)
}
