//! The laws of passwords: where passwords and challenges alone let requests in, an accepted request has what they ask for. They
//! are facts about the definitions, and the functions do nothing.

ghost use Rattle.std.specs.Prelude.{◌≡◌, ◌⊎◌, ℕ, List, []};
ghost use Rattle.rad_dict.specs.Definitions.{Definitions};
ghost use Rattle.mod_base.specs.Situation.{Situation};
ghost use Rattle.mod_auth.specs.LetsIn.{KnowsThePassword, HasTheDigest};
ghost use Rattle.rad_access.specs.declared.verdict.Verdict.{Verdict};
ghost use Rattle.rad_access.specs.Access.{authorized};
ghost use Rattle.rad_access.specs.Decided.{decided};
ghost use Rattle.rad_access.specs.Passwords.{ChecksPasswords, ChecksChallenges, ChecksEither};
ghost use Rattle.rad_access.specs.Policies.{Policies as AnyPolicies};

/// Where each subsection of a server's authenticate only calls `pap`, in whatever blocks and with whatever actions, and nothing
/// in its authorize can bring Auth-Type to `Accept`, neither an update nor a module, a request whose control list is empty at
/// its start is accepted only where, behind authorize, its first User-Password is a text that isn't empty and the first of the
/// four passwords in the control list knows it. Beside `pap`, `always` of another code than ok may be called.
pub fn passwords_let_requests_in()
    ensures { (policies : AnyPolicies) (dict : Definitions) (server : List ℕ) (begun : Situation) → ChecksPasswords policies server
        → begun.scope.lists.control ≡ [] → (decided policies dict server begun).1 ≡ Verdict.Accept → KnowsThePassword (authorized policies dict server begun).0.scope.lists }
{}

/// Where each of them only calls `chap`, it is accepted only where, behind authorize, its first CHAP-Password is an octet and the
/// MD5 of that octet, the user's Cleartext-Password and the challenge: its first CHAP-Challenge, or else its Request
/// Authenticator.
pub fn challenges_let_requests_in()
    ensures { (policies : AnyPolicies) (dict : Definitions) (server : List ℕ) (begun : Situation) → ChecksChallenges policies server
        → begun.scope.lists.control ≡ [] → (decided policies dict server begun).1 ≡ Verdict.Accept
        → HasTheDigest (authorized policies dict server begun).0.scope.authenticator (authorized policies dict server begun).0.scope.lists }
{}

/// Where each of them only calls `pap` and `chap`, it is accepted only where it has the password or the answer to the challenge.
pub fn passwords_and_challenges_let_requests_in()
    ensures { (policies : AnyPolicies) (dict : Definitions) (server : List ℕ) (begun : Situation) → ChecksEither policies server
        → begun.scope.lists.control ≡ [] → (decided policies dict server begun).1 ≡ Verdict.Accept
        → KnowsThePassword (authorized policies dict server begun).0.scope.lists
        ⊎ HasTheDigest (authorized policies dict server begun).0.scope.authenticator (authorized policies dict server begun).0.scope.lists }
{}
