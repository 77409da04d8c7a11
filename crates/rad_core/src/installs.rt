ghost use Rattle.std.specs.Prelude.{◌≡◌, ◌<◌, ◌^◌, IfOk};
ghost use Rattle.rad_core.specs.Entry.{Install};
ghost use Rattle.rad_core.specs.Step.{Step, gone_of, served_by};
ghost use Rattle.rad_core.specs.Answers.{load_seen};
ghost use Rattle.rad_core.specs.Core.{state_of, origin_of};

use crate::installed::Installed;
use crate::machine::Core;
use rad_outside::{Listen, ListenKind, NoMemory, Octets};
use rad_policy::Policy;
use std::alloc::Global;
use std::sync::Arc;

impl<P: Policy, L> Core<P, L> {
    /// Makes a loaded generation the present one, where it has a server for each listener.
    pub fn install(
        &mut self,
        worker: u32,
        load: Result<Arc<P>, P::Fault>,
        listeners: &[Listen],
    ) -> Installed<P::Fault>
        requires few { (state_of self.old).entries < 2 ^ 63 }
        ensures step { Step P.meaning (state_of self.old)
            (Install worker (load_seen load) listeners.now result) (state_of self.new) }
        ensures origin { origin_of self.new ≡ origin_of self.old }
    {
        self.entries += 1;
        match load {
            Err(fault) => Installed::Refused(fault),
            Ok(generation) => match gone_server(self.alloc, &*generation, listeners) {
                Err(NoMemory) => Installed::Refused(P::memory_fault()),
                Ok(Some(name)) => Installed::ListenerGone(name),
                Ok(None) => {
                    self.generations += 1;
                    self.present = Some(generation);
                    Installed::Generation(self.generations)
                }
            },
        }
    }
}

/// The server of the first listener that the generation lacks.
fn gone_server<P: Policy>(
    alloc: Global,
    generation: &P,
    listeners: &[Listen],
) -> Result<Option<Octets>, NoMemory>
    ensures { IfOk result (λ gone. gone ≡ gone_of P.meaning generation.now listeners.now) }
{
    for listen in listeners {
        if !is_served(generation, listen) {
            return Ok(Some(Octets::of(alloc, listen.server.as_slice())?));
        }
    }
    Ok(None)
}

/// Whether a generation has the server of a listener. A control listener is of no server.
fn is_served<P: Policy>(generation: &P, listen: &Listen) -> bool
    ensures { result ≡ served_by P.meaning generation.now listen.now }
{
    match listen.kind {
        ListenKind::Auth | ListenKind::Acct => generation.has_server(listen.server.as_slice()),
        ListenKind::Control => true,
    }
}
