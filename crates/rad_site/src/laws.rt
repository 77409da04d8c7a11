//! The laws of a site: its clients are what its blocks say, and where passwords and challenges alone let requests in, a request
//! that is answered by an Access-Accept has what they ask for. They are facts about the definitions, and the functions do
//! nothing.

ghost use Rattle.std.specs.Prelude.{◌≡◌, ◌⊎◌, ℕ, Bool, List, [], Some, Ok, map, filter};
ghost use Rattle.mod_auth.specs.LetsIn.{KnowsThePassword, HasTheDigest};
ghost use Rattle.rad_policy.specs.Policy.{Replies};
ghost use Rattle.rad_policy.specs.declared.arrival.Arrived.{Arrived};
ghost use Rattle.rad_access.specs.Passwords.{ChecksPasswords, ChecksChallenges, ChecksEither};
ghost use Rattle.rad_site.specs.Site.{Site};
ghost use Rattle.rad_site.specs.Request.{access_of};
ghost use Rattle.rad_site.specs.Accepts.{IsAccessAccept, authorized_by};
ghost use Rattle.rad_conf.specs.declared.tree.Node.{Node};
ghost use Rattle.rad_packet.specs.declared.client.Client.{Client};
ghost use Rattle.rad_build.specs.Said.{AreNew};
ghost use Rattle.rad_build.specs.ClientsSaid.{said_client, IsOfAnother};
ghost use Rattle.rad_site.specs.Built.{is_client, clients_in};

/// The clients of a site that is built are what its blocks `client NAME { .. }` say, one each, in order: of the block's name, of
/// the network that its first `ipaddr` is set to, by the secret that its first `secret` is set to. Each is of another network
/// than those before it.
pub fn clients_are_what_their_blocks_say()
    ensures said { (nodes : List Node) (clients : List Client) → clients_in nodes ≡ Ok clients
        → map (λ (one : Client). Some one) clients ≡ map said_client (filter is_client nodes) }
    ensures new { (nodes : List Node) (clients : List Client) → clients_in nodes ≡ Ok clients → AreNew IsOfAnother [] clients }
{}

/// Where each subsection of the arrival's server's authenticate only calls `pap`, and nothing in its authorize can bring Auth-Type
/// to `Accept` (as `passwords_let_requests_in` has it), the octets that answer a request are those of an Access-Accept only where,
/// behind authorize, its first User-Password is a text that isn't empty and the first of the four passwords in the control list
/// knows it; where it only calls `chap`, only where its first CHAP-Password answers its challenge; and where it calls both, only
/// where one of the two is so.
pub fn access_accepts_had_the_password()
    ensures passwords { (site : Site) (arrival : Arrived) (moment luck : ℕ) (answers : List Bool) (octets : List ℕ) → ChecksPasswords site.policies arrival.server
        → access_of site arrival moment luck answers ≡ Replies octets → IsAccessAccept octets
        → KnowsThePassword (authorized_by site arrival moment luck answers).scope.lists }
    ensures challenges { (site : Site) (arrival : Arrived) (moment luck : ℕ) (answers : List Bool) (octets : List ℕ) → ChecksChallenges site.policies arrival.server
        → access_of site arrival moment luck answers ≡ Replies octets → IsAccessAccept octets
        → HasTheDigest (authorized_by site arrival moment luck answers).scope.authenticator (authorized_by site arrival moment luck answers).scope.lists }
    ensures either { (site : Site) (arrival : Arrived) (moment luck : ℕ) (answers : List Bool) (octets : List ℕ) → ChecksEither site.policies arrival.server
        → access_of site arrival moment luck answers ≡ Replies octets → IsAccessAccept octets
        → KnowsThePassword (authorized_by site arrival moment luck answers).scope.lists
        ⊎ HasTheDigest (authorized_by site arrival moment luck answers).scope.authenticator (authorized_by site arrival moment luck answers).scope.lists }
{}
