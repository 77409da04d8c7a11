ghost use Rattle.std.specs.Prelude.{◌≡◌, ◌∷◌, [], IfOk, IfErr};
ghost use Rattle.std.specs.Arc.{arc_value};
ghost use Rattle.radiusd.specs.Loading.{listener_of, IsInstalled};
ghost use Rattle.radiusd.specs.Statuses.{IsNotInstalled};

use crate::status::Status;
use rad_outside::{Listen, ListenKind, NoMemory, Octets, Shelf};
use rad_serve::Hub;
use rad_site::Generation;
use std::alloc::Global;
use std::sync::{Arc, Wait};

/// The listener of a generation.
fn listener_of(alloc: Global, generation: &Generation) -> Result<Listen, NoMemory>
    ensures { IfOk result (λ listen. listen ≡ listener_of generation.now) }
{
    Ok(Listen {
        server: Octets::of(alloc, generation.server())?,
        kind: ListenKind::Auth,
        at: generation.at(),
    })
}

/// The listeners of a generation, its own alone.
fn listeners_of(alloc: Global, generation: &Generation) -> Result<Vec<Listen>, NoMemory>
    ensures { IfOk result (λ listeners. listeners.items ≡ listener_of generation.now ∷ []) }
{
    let mut listeners = Vec::new(alloc);
    listeners.push(listener_of(alloc, generation)?)?;
    Ok(listeners)
}

/// Installs a shared generation for its own listener. It isn't tried where the history has no room for two entries.
fn install_shared<R: Wait, L: Shelf>(
    rt: &R,
    alloc: Global,
    hub: &mut Hub<L>,
    generation: Arc<Generation>,
) -> Result<Listen, Status>
    ensures installed { IfOk result (IsInstalled hub.old.history hub.new.history (arc_value generation)) }
    ensures err { IfErr result (IsNotInstalled hub.old.history hub.new.history (arc_value generation)) }
    ensures origin { hub.new.origin ≡ hub.old.origin }
{
    let Ok(listen) = listener_of(alloc, &generation) else {
        return Err(Status::NoMemory);
    };
    let Ok(listeners) = listeners_of(alloc, &generation) else {
        return Err(Status::NoMemory);
    };
    if !hub.has_turns() {
        return Err(Status::Worn);
    }
    if hub.install(rt, generation, listeners.as_slice()) {
        Ok(listen)
    } else {
        Err(Status::NoMemory)
    }
}

/// Installs a generation for its own listener, and answers that listener. An install that had no memory is an entry
/// of the history, too.
pub(crate) fn install<R: Wait, L: Shelf>(
    rt: &R,
    alloc: Global,
    hub: &mut Hub<L>,
    generation: Generation,
) -> Result<Listen, Status>
    ensures installed { IfOk result (IsInstalled hub.old.history hub.new.history generation) }
    ensures err { IfErr result (IsNotInstalled hub.old.history hub.new.history generation) }
    ensures origin { hub.new.origin ≡ hub.old.origin }
{
    match Arc::new(alloc, generation) {
        Ok(generation) => install_shared(rt, alloc, hub, generation),
        Err(_) => Err(Status::NoMemory),
    }
}
