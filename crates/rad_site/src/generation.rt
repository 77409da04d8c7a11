ghost use Rattle.std.specs.Prelude.{◌≡◌};

use rad_access::Policies;
use rad_build::Settings;
use rad_clients::Clients;
use rad_dict::Dict;
use rad_outside::{Octets, Peer};
use std::marker::Model;

/// A generation of a site: a dictionary, the settings, the clients, the modules and the servers' sections that call them, and one auth
/// listener.
#[derive(Drop)]
pub struct Generation {
    pub(crate) dict: Dict,
    pub(crate) settings: Settings,
    pub(crate) clients: Clients,
    pub(crate) policies: Policies,
    pub(crate) server: Octets,
    pub(crate) at: Peer,
}

impl Model for Generation {
    ghost use Rattle.rad_site.specs.Site.{Site};
    ghost use Rattle.std.specs.Coded.{codes};
    ghost use Rattle.unlang_xlat.specs.contracts.part.Part as part;
    ghost use Rattle.unlang_tree.specs.contracts.statement.StatementKind as kind;

    ghost Value = { Site };

    ghost coded = { Prim.hlevel (codes, part.the_row.coded, kind.the_row.coded) };

    ghost view = { λ g. record {
      dict = g.dict;
      settings = g.settings;
      clients = g.clients;
      policies = g.policies;
      server = g.server;
      at = g.at;
    } };
}

impl Generation {
    /// The name of the listener's server.
    pub fn server(&self) -> &[u8]
        ensures { result.now ≡ self.now.server }
    {
        self.server.as_slice()
    }

    /// Where the listener is bound.
    pub fn at(&self) -> Peer
        ensures { result ≡ self.now.at }
    {
        self.at
    }
}
