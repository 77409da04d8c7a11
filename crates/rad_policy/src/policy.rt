ghost use Rattle.std.specs.Prelude.{◌≡◌, ◌≤◌, Err};
ghost use Rattle.std.specs.Option.{option_copied};
ghost use Rattle.rad_outside.specs.Telling.{Tells, Counts};
ghost use Rattle.rad_outside.specs.Files.{begun};
ghost use Rattle.rad_outside.specs.Moments.{IsInTime};
ghost use Rattle.rad_outside.specs.declared.listen.ListenKind.TheVariants.{Auth};
ghost use Rattle.rad_policy.specs.Policy.{Meaning, IsBuilt};
ghost use Rattle.rad_policy.specs.Policy.{IsAuthenticUnder};
ghost use Rattle.rad_policy.specs.Seen.{arrived_of, GivesOutcome, FitsDatagram};

use crate::arrival::Arrival;
use crate::outcome::Outcome;
use rad_outside::{Files, Shelf};
use rad_packet::Client;
use std::alloc::Global;

/// A generation of a site: what it answers to a request.
pub trait Policy: Drop {
    /// Why a site can't be built.
    type Fault: Drop;

    /// What it means.
    ghost meaning: { Meaning Self Self.Fault };

    /// The fault that says that memory ran out.
    fn memory_fault() -> Self::Fault
        ensures { result ≡ meaning.memory_fault };

    /// A generation of the site in this folder, or the first fault of its files. Takes the next map of the files.
    fn build<F: Files>(alloc: Global, files: &mut F, dir: &str) -> Result<Self, Self::Fault>
        ensures told { Tells (F.told files.old) (F.told files.new) (λ before now. (now ≡ begun before)
            × IsBuilt meaning (record { files = (begun before).present; folder = dir.now }) result) }
        ensures faults { Counts (F.faults files.old) (F.faults files.new) (result ≡ Err meaning.read_fault) };

    /// The client of a source address.
    fn client(&self, addr: u32) -> Option<&Client>
        ensures { option_copied result ≡ meaning.client self.now addr };

    /// Whether there is a virtual server of this name.
    fn has_server(&self, name: &[u8]) -> bool
        ensures { result ≡ meaning.has_server self.now name.now };

    /// How many requests the table holds at most, 1 to 65,536.
    fn max_requests(&self) -> u32
        ensures { result ≡ meaning.max_requests self.now };

    /// How long a reply is kept for repeats, 0 to 3,600 seconds.
    fn cleanup_delay(&self) -> u32
        ensures { result ≡ meaning.cleanup_delay self.now };

    /// What an authentic access request is answered, at this moment and with this luck word. No policy appends to the
    /// shelf yet.
    fn access<S: Shelf>(
        &self,
        alloc: Global,
        arrival: &Arrival,
        moment: u64,
        luck: u64,
        shelf: &mut S,
    ) -> Outcome
        requires authentic { IsAuthenticUnder meaning self.now (arrived_of arrival.now) }
        requires auth { arrival.now.kind ≡ Auth }
        requires moment { IsInTime moment }
        ensures outcome { GivesOutcome meaning self.now (arrived_of arrival.entry.now) moment luck result }
        ensures limit { FitsDatagram result }
        ensures shelf { shelf.new ≡ shelf.old };
}
