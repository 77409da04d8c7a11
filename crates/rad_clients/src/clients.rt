//! The clients of a site, by their networks.

ghost use Rattle.std.specs.Prelude.{◌≡◌, ◌≤◌, [], ◌∷◌, ◌++◌, length, IfOk, IfSome, IfNone};
ghost use Rattle.rad_packet.specs.declared.client.Client.{Client};
ghost use Rattle.std.specs.List.{find, Contains, All};
ghost use Rattle.std.specs.Option.{option_copied};
ghost use Rattle.rad_index.specs.Search.{found_at};
ghost use Rattle.rad_clients.specs.Networks.{is_of, nearest_of, client_of, IsNearest, HasAddress};

use crate::network::{is_of, network_key};
use rad_index::Index;
use rad_outside::NoMemory;
use rad_packet::Client;
use std::alloc::Global;
use std::marker::Model;

/// Clients in the order in which they were added, in which a network's client is found without a look at the others.
#[derive(Debug, Drop)]
pub struct Clients {
    rows: Vec<Client>,
    networks: Index,
}

impl Model for Clients {
    ghost use Rattle.std.specs.Prelude.{◌≡◌, ◌≤◌, List, map};
    ghost use Rattle.std.specs.List.{All};
    ghost use Rattle.rad_packet.specs.declared.client.Client.{Client};
    ghost use Rattle.rad_clients.specs.Networks.{key_of};

    ghost Value = { List Client };

    ghost view = { λ c. c.rows.items };

    ghost invariant = { λ c. (c.networks ≡ map key_of c.rows.items) × All (λ (client : Client). client.bits ≤ 32) c.rows.items };
}

impl Clients {
    /// No client.
    pub fn new(alloc: Global) -> Clients
        ensures { result ≡ [] }
    {
        Clients {
            rows: Vec::new(alloc),
            networks: Index::new(alloc),
        }
    }

    /// The same with one more client, whose prefix has at most 32 bits.
    pub fn with(self, alloc: Global, client: Client) -> Result<Clients, NoMemory>
        requires { client.bits ≤ 32 }
        ensures { IfOk result (λ clients. clients ≡ self ++ client ∷ []) }
    {
        let Clients { mut rows, networks } = self;
        let networks = networks.with(alloc, network_key(client.bits, client.addr))?;
        rows.push(client)?;
        Ok(Clients { rows, networks })
    }

    /// How many clients there are.
    pub fn len(&self) -> usize
        ensures { result ≡ length self.now }
    {
        self.rows.len()
    }

    /// The first client that is this network: the network of so many bits that has the address.
    pub fn of_network(&self, bits: u8, addr: u32) -> Option<&Client>
        requires { bits ≤ 32 }
        ensures { option_copied result ≡ find (is_of bits addr) self.now }
    {
        let places = self.networks.places(network_key(bits, addr));
        client_at(self.rows.as_slice(), places, bits, addr)
    }

    /// The client of an address: of those whose network has it, the one with the longest prefix.
    pub fn of_addr(&self, addr: u32) -> Option<&Client>
        ensures client { option_copied result ≡ client_of addr self.now }
        ensures nearest { IfSome (option_copied result) (λ client. IsNearest client addr self.now) }
        ensures stranger { IfNone (option_copied result) ((client : Client) → Contains self.now client → HasAddress client addr → ⊥) }
    {
        self.each_prefix_fits();
        self.nearest(addr)
    }

    /// Each client's prefix has at most 32 bits.
    fn each_prefix_fits(&self)
        ensures { All (λ (client : Client). client.bits ≤ 32) self.now }
    {
        let _ = self.rows.len();
    }

    /// The first client of the longest prefix whose network has the address.
    fn nearest(&self, addr: u32) -> Option<&Client>
        ensures { option_copied result ≡ client_of addr self.now }
    {
        let mut bits = 32;
        while bits > 0 {
            if let Some(client) = self.of_network(bits, addr) {
                return Some(client);
            }
            bits -= 1;
        }
        self.of_network(0, addr)
    }
}

/// The first client at these places that is this network.
fn client_at<'a>(rows: &'a [Client], places: &[usize], bits: u8, addr: u32) -> Option<&'a Client>
    requires { bits ≤ 32 }
    ensures { option_copied result ≡ found_at (is_of bits addr) rows.now places.now }
{
    let mut rest = places;
    while let Some((place, after)) = rest.split_first() {
        match rows.get(*place) {
            Some(row) if is_of(bits, addr, row) => return Some(row),
            _ => rest = after,
        }
    }
    None
}
