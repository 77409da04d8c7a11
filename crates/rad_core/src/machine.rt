ghost use Rattle.std.specs.Prelude.{◌≤◌};
ghost use Rattle.rad_outside.specs.Moments.{IsInTime};

use crate::table::Table;
use rad_outside::Octets;
use rad_policy::Policy;
use std::alloc::Global;
use std::sync::Arc;

/// The state of the server behind its history, and the session log.
#[derive(Drop)]
pub struct Core<P, L> {
    pub(crate) alloc: Global,
    pub(crate) log: L,
    pub(crate) path: Octets,
    pub(crate) present: Option<Arc<P>>,
    pub(crate) generations: u64,
    pub(crate) moment: u64,
    pub(crate) is_stopped: bool,
    pub(crate) entries: u64,
    pub(crate) table: Table<P>,
    ghost one_each: { generations ≤ entries },
    ghost in_time: { IsInTime moment },
}

impl<P: Policy, L> Core<P, L> {
    ghost use Rattle.std.specs.Prelude.{◌≡◌, IsUtf8};
    ghost use Rattle.rad_core.specs.State.{opening};
    ghost use Rattle.rad_core.specs.Core.{state_of, log_of, origin_of};

    /// A core on which nothing has happened, with the session log at a path, which is UTF-8.
    pub fn new(alloc: Global, log: L, path: Octets) -> Core<P, L>
        requires { IsUtf8 path }
        ensures state { state_of result ≡ opening }
        ensures origin { origin_of result ≡ (log, path) }
    {
        Core {
            alloc,
            log,
            path,
            present: None,
            generations: 0,
            moment: 0,
            is_stopped: false,
            entries: 0,
            table: Table::new(alloc),
        }
    }

    /// The log, as the events left it.
    pub fn into_log(self) -> L
        ensures { result ≡ log_of self }
    {
        let Core { log, .. } = self;
        log
    }
}
