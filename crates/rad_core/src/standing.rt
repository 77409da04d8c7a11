//! A core behind a desk: what it stands for.
use crate::entry::Entry;
use crate::machine::Core;
use rad_outside::Octets;
use rad_policy::Policy;
use rad_turn::Stands;

impl<P: Policy, L> Stands for Core<P, L> {
    ghost use Rattle.rad_core.specs.Entry.{worker_of};
    ghost use Rattle.rad_core.specs.Core.{origin_of};
    ghost use Rattle.rad_core.specs.Behind.{StandsFor};

    type Entry = Entry<P, P::Fault>;

    /// The session log and its path, which no entry changes yet.
    type Origin = (L, Octets);

    type Beginning = ();

    ghost by = { worker_of };

    ghost origin = { origin_of };

    ghost beginning = { λ _. tt };

    ghost stands = { StandsFor P.meaning };
}
