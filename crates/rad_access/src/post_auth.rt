//! What becomes of an access request: post-auth, and Post-Auth-Type REJECT.

ghost use Rattle.std.specs.Prelude.{◌≡◌, IfOk, OnOk};
ghost use Rattle.mod_base.specs.Reaching.{Reaches};
ghost use Rattle.mod_filter.specs.Sieve.{sifted};
ghost use Rattle.rad_value.specs.declared.edits.ListName.TheVariants.{Reply};
ghost use Rattle.rad_value.specs.Pairs.{is_of};
ghost use Rattle.rad_access.specs.Access.{IsReady};
ghost use Rattle.rad_access.specs.Attributes.{reply_message};
ghost use Rattle.rad_access.specs.Decided.{after_post_auth, after_reject, posted, posted_for, refused, refused_for, refused_by, reject_of, behind_let_in, decided};

use crate::attributes::REPLY_MESSAGE;
use crate::policies::Policies;
use crate::verdict::Verdict;
use mod_base::World;
use mod_filter::{Sieve, sift};
use rad_dict::Dict;
use rad_outside::NoMemory;
use rad_value::{ListName, Lists, Pair, Scope};
use rad_words::{Code, Section};
use std::alloc::Global;

/// The messages of a reply.
#[derive(Drop)]
struct Messages;

impl Sieve for Messages {
    ghost keeps = { λ m. is_of reply_message };

    fn stays(&self, _alloc: Global, pair: &Pair) -> Result<bool, NoMemory> {
        Ok(pair.attr == REPLY_MESSAGE)
    }
}

/// Leaves of the reply list the messages alone.
fn keep_messages(alloc: Global, lists: &mut Lists) -> Result<(), NoMemory>
    ensures { OnOk result (lists.new ≡ sifted (is_of reply_message) Reply lists.old) }
{
    sift(alloc, &Messages, ListName::Reply, lists)
}

/// What post-auth makes of an accepted request by its code.
fn after_post_auth(code: Code) -> Verdict
    ensures { result ≡ after_post_auth code }
{
    match code {
        Code::Ok | Code::Updated | Code::Noop | Code::Notfound => Verdict::Accept,
        Code::Handled => Verdict::Withhold,
        Code::Reject | Code::Fail | Code::Invalid | Code::Userlock => Verdict::Reject,
    }
}

/// What Post-Auth-Type REJECT makes of a rejected request by its code.
fn after_reject(code: Code) -> Verdict
    ensures { result ≡ after_reject code }
{
    match code {
        Code::Handled => Verdict::Withhold,
        Code::Reject
        | Code::Fail
        | Code::Ok
        | Code::Invalid
        | Code::Userlock
        | Code::Notfound
        | Code::Noop
        | Code::Updated => Verdict::Reject,
    }
}

impl Policies {
    /// Runs post-auth for an accepted request, where the server has it.
    fn post_auth<W: World>(
        &self,
        alloc: Global,
        server: &[u8],
        scope: &mut Scope,
        world: &mut W,
        dict: &Dict,
    ) -> Result<Verdict, NoMemory>
        requires ready { IsReady scope.old (W.state world.old) }
        ensures ok { IfOk result (λ verdict. Reaches scope.old (W.state world.old) (posted self.now dict.now server.now) scope.new (W.state world.new) (λ s. (s, verdict))) }
        ensures ready { OnOk result (IsReady scope.new (W.state world.new)) }
    {
        match self.find(server, Section::PostAuth, None) {
            None => Ok(Verdict::Accept),
            Some(id) => {
                let code = self.run(alloc, id, scope, world, dict)?;
                Ok(after_post_auth(code))
            }
        }
    }

    /// Runs post-auth for a request that was let in, and for no other.
    fn post_auth_for<W: World>(
        &self,
        alloc: Global,
        server: &[u8],
        verdict: Verdict,
        scope: &mut Scope,
        world: &mut W,
        dict: &Dict,
    ) -> Result<Verdict, NoMemory>
        requires ready { IsReady scope.old (W.state world.old) }
        ensures ok { IfOk result (λ after. Reaches scope.old (W.state world.old) (posted_for self.now dict.now server.now verdict) scope.new (W.state world.new) (λ s. (s, after))) }
        ensures ready { OnOk result (IsReady scope.new (W.state world.new)) }
    {
        match verdict {
            Verdict::Accept => self.post_auth(alloc, server, scope, world, dict),
            Verdict::Reject => Ok(Verdict::Reject),
            Verdict::Withhold => Ok(Verdict::Withhold),
        }
    }

    /// Runs Post-Auth-Type REJECT, where the server has it.
    fn post_reject<W: World>(
        &self,
        alloc: Global,
        server: &[u8],
        scope: &mut Scope,
        world: &mut W,
        dict: &Dict,
    ) -> Result<Verdict, NoMemory>
        requires ready { IsReady scope.old (W.state world.old) }
        ensures ok { IfOk result (λ verdict. Reaches scope.old (W.state world.old) (refused_by self.now dict.now (reject_of self.now server.now)) scope.new (W.state world.new) (λ s. (s, verdict))) }
    {
        match self.find(server, Section::PostAuth, Some(b"REJECT")) {
            None => Ok(Verdict::Reject),
            Some(id) => {
                let code = self.run(alloc, id, scope, world, dict)?;
                Ok(after_reject(code))
            }
        }
    }

    /// Does what is done for a rejected request: of its reply list the messages stay, and then Post-Auth-Type REJECT runs.
    fn refuse<W: World>(
        &self,
        alloc: Global,
        server: &[u8],
        scope: &mut Scope,
        world: &mut W,
        dict: &Dict,
    ) -> Result<Verdict, NoMemory>
        requires ready { IsReady scope.old (W.state world.old) }
        ensures ok { IfOk result (λ verdict. Reaches scope.old (W.state world.old) (refused self.now dict.now server.now) scope.new (W.state world.new) (λ s. (s, verdict))) }
    {
        keep_messages(alloc, &mut scope.lists)?;
        self.post_reject(alloc, server, scope, world, dict)
    }

    /// Does it where a request is rejected, and for no other.
    fn refuse_for<W: World>(
        &self,
        alloc: Global,
        server: &[u8],
        verdict: Verdict,
        scope: &mut Scope,
        world: &mut W,
        dict: &Dict,
    ) -> Result<Verdict, NoMemory>
        requires ready { IsReady scope.old (W.state world.old) }
        ensures ok { IfOk result (λ after. Reaches scope.old (W.state world.old) (refused_for self.now dict.now server.now verdict) scope.new (W.state world.new) (λ s. (s, after))) }
    {
        match verdict {
            Verdict::Accept => Ok(Verdict::Accept),
            Verdict::Reject => self.refuse(alloc, server, scope, world, dict),
            Verdict::Withhold => Ok(Verdict::Withhold),
        }
    }

    /// What becomes of a request that was let in or not.
    fn behind_let_in<W: World>(
        &self,
        alloc: Global,
        server: &[u8],
        verdict: Verdict,
        scope: &mut Scope,
        world: &mut W,
        dict: &Dict,
    ) -> Result<Verdict, NoMemory>
        requires ready { IsReady scope.old (W.state world.old) }
        ensures ok { IfOk result (λ after. Reaches scope.old (W.state world.old) (behind_let_in self.now dict.now server.now verdict) scope.new (W.state world.new) (λ s. (s, after))) }
    {
        let posted = self.post_auth_for(alloc, server, verdict, scope, world, dict)?;
        self.refuse_for(alloc, server, posted, scope, world, dict)
    }

    /// What becomes of a request: authorize and authenticate let it in or not, post-auth runs where it was let in, and then
    /// what is done for a rejected one. After want of memory the scope is given up.
    pub fn decide<W: World>(
        &self,
        alloc: Global,
        server: &[u8],
        scope: &mut Scope,
        world: &mut W,
        dict: &Dict,
    ) -> Result<Verdict, NoMemory>
        requires ready { IsReady scope.old (W.state world.old) }
        ensures ok { IfOk result (λ verdict. Reaches scope.old (W.state world.old) (decided self.now dict.now server.now) scope.new (W.state world.new) (λ s. (s, verdict))) }
    {
        let verdict = self.let_in(alloc, server, scope, world, dict)?;
        self.behind_let_in(alloc, server, verdict, scope, world, dict)
    }
}
