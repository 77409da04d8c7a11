//! A law of repeats: a fact about all legal histories. The function does nothing.
ghost use Rattle.std.specs.Prelude.{List};
ghost use Rattle.rad_core.specs.Entry.{Entry};
ghost use Rattle.rad_core.specs.State.{opening};
ghost use Rattle.rad_core.specs.Step.{IsLegal};
ghost use Rattle.rad_core.specs.Keeping.{KeepsReplies};

use rad_policy::Policy;

/// A packet that comes again from its source on its listener within the keeping time of its reply gets the same octets
/// again, whatever came between (RFC 5080 section 2.2.2). Only where it isn't authentic under the present generation any
/// more is it dropped. Nothing else is answered as a repeat, so after its keeping time it is run again.
pub fn repeats_get_the_first_reply<P: Policy>()
    ensures kept { (history : List (Entry P P.Fault)) → IsLegal P.meaning opening history → KeepsReplies P.meaning history }
{}
