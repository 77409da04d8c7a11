ghost use Rattle.std.specs.Prelude.{◌≡◌, [], length, IfOk};
ghost use Rattle.rad_outside.specs.declared.listen.ListenKind.TheVariants.{Auth};
ghost use Rattle.rad_outside.specs.Moments.{IsInTime};
ghost use Rattle.rad_packet.specs.Octets.{IsChecked};
ghost use Rattle.rad_packet.specs.Packet.{authenticator_of};
ghost use Rattle.rad_policy.specs.Policy.{IsAuthenticUnder};
ghost use Rattle.rad_policy.specs.Seen.{arrived_of, FitsDatagram};
ghost use Rattle.rad_site.specs.Request.{secret_of, Answers};
ghost use Rattle.rad_site.specs.Meaning.{site_meaning};

use crate::bare_world::BareWorld;
use crate::build::{CONF, dict_at, site_of};
use crate::generation::Generation;
use crate::reply::reply_to;
use rad_build::BuildFault;
use rad_conf::read_conf;
use rad_outside::{Files, NoMemory, Shelf};
use rad_packet::{Checked, Client, check};
use rad_policy::{Arrival, Outcome, Policy};
use rad_value::Scope;
use rad_wire::decode;
use std::alloc::Global;

impl Policy for Generation {
    type Fault = BuildFault;

    ghost meaning = { site_meaning };

    fn memory_fault() -> BuildFault {
        BuildFault::NoMemory
    }

    fn build<F: Files>(alloc: Global, files: &mut F, dir: &str) -> Result<Generation, BuildFault> {
        files.begin();
        let conf = read_conf(alloc, files, dir, CONF)?;
        let dict = dict_at(alloc, files, dir)?;
        site_of(alloc, files, dir, dict, &conf)
    }

    fn client(&self, addr: u32) -> Option<&Client> {
        self.clients.of_addr(addr)
    }

    fn has_server(&self, name: &[u8]) -> bool {
        self.policies.has_server(name)
    }

    fn max_requests(&self) -> u32 {
        self.settings.max_requests
    }

    fn cleanup_delay(&self) -> u32 {
        self.settings.cleanup_delay
    }

    fn access<S: Shelf>(
        &self,
        alloc: Global,
        arrival: &Arrival,
        moment: u64,
        luck: u64,
        _shelf: &mut S,
    ) -> Outcome {
        match self.answer(alloc, arrival, moment, luck) {
            Ok(outcome) => outcome,
            Err(_) => Outcome::NoMemory,
        }
    }
}

/// The Request Authenticator of a packet.
fn authenticator_of(packet: &Checked) -> [u8; 16]
    requires { IsChecked packet.now }
    ensures { result ≡ authenticator_of packet.now.octets.now }
{
    let mut authenticator = [0; 16];
    authenticator.copy_from_slice(packet.authenticator());
    authenticator
}

impl Generation {
    /// The secret shared with a source, empty where it is no client's.
    fn secret(&self, addr: u32) -> &[u8]
        ensures { result.now ≡ secret_of self.now addr }
    {
        match self.client(addr) {
            Some(client) => client.secret.as_slice(),
            None => &[],
        }
    }

    /// What an authentic request is answered at a moment, with a luck word.
    fn answer(
        &self,
        alloc: Global,
        arrival: &Arrival,
        moment: u64,
        luck: u64,
    ) -> Result<Outcome, NoMemory>
        requires authentic { IsAuthenticUnder site_meaning self.now (arrived_of arrival.now) }
        requires auth { arrival.now.kind ≡ Auth }
        requires moment { IsInTime moment }
        ensures outcome { IfOk result (Answers self.now (arrived_of arrival.entry.now) moment luck) }
        ensures limit { IfOk result FitsDatagram }
    {
        let Ok(request) = check(arrival.bytes, self.client(arrival.from.addr), arrival.kind) else {
            unreachable!()
        };
        let secret = self.secret(arrival.from.addr);
        let lists = decode(alloc, &request, secret, &self.dict)?;
        let authenticator = authenticator_of(&request);
        let mut scope = Scope::new(lists, arrival.from, moment, luck, authenticator);
        let mut world = BareWorld::new(alloc);
        let verdict = self
            .policies
            .decide(alloc, arrival.server, &mut scope, &mut world, &self.dict)?;
        reply_to(alloc, verdict, &scope.lists, &request, secret)
    }
}
