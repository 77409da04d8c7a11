//! Whether an access request is let in: authorize and authenticate.

ghost use Rattle.std.specs.Prelude.{◌≡◌, IfOk, OnOk, IfSome};
ghost use Rattle.std.specs.Option.{option_copied, is_none};
ghost use Rattle.mod_base.specs.Reaching.{Reaches};
ghost use Rattle.rad_access.specs.Access.{after_authorize, after_authenticate, has_server, section_named, route_of, verdict_by, settled, done_in, authorized, authenticated, let_in, HasStatements, IsReady};

use crate::attributes::AUTH_TYPE;
use crate::policies::Policies;
use crate::verdict::Verdict;
use mod_base::World;
use rad_dict::Dict;
use rad_outside::NoMemory;
use rad_value::{ListName, Scope};
use rad_words::{Code, Section};
use std::alloc::Global;
use unlang_code::SectionId;

/// What authorize decides by its code, none where the request goes on.
fn after_authorize(code: Code) -> Option<Verdict>
    ensures { result ≡ after_authorize code }
{
    match code {
        Code::Ok | Code::Updated | Code::Noop | Code::Notfound => None,
        Code::Handled => Some(Verdict::Withhold),
        Code::Reject | Code::Fail | Code::Invalid | Code::Userlock => Some(Verdict::Reject),
    }
}

/// What authenticate decides by its code.
fn after_authenticate(code: Code) -> Verdict
    ensures { result ≡ after_authenticate code }
{
    match code {
        Code::Ok => Verdict::Accept,
        Code::Handled => Verdict::Withhold,
        Code::Reject
        | Code::Fail
        | Code::Invalid
        | Code::Userlock
        | Code::Notfound
        | Code::Noop
        | Code::Updated => Verdict::Reject,
    }
}

/// Whether a request goes on behind authorize.
fn goes_on(decided: Option<Verdict>) -> bool
    ensures { result ≡ is_none decided }
{
    decided.is_none()
}

/// What is decided already.
fn settled(decided: Option<Verdict>) -> Verdict
    ensures { result ≡ settled decided }
{
    match decided {
        Some(verdict) => verdict,
        None => Verdict::Reject,
    }
}

/// The verdict to which an Auth-Type leads, where it leads through no subsection.
fn verdict_of(route: Result<SectionId, Verdict>) -> Verdict
    ensures { result ≡ verdict_by route }
{
    match route {
        Ok(_) => Verdict::Reject,
        Err(verdict) => verdict,
    }
}

impl Policies {
    /// Whether there is a server of this name.
    pub fn has_server(&self, name: &[u8]) -> bool
        ensures { result ≡ has_server self.now.table name.now }
    {
        self.table.server(name).is_some()
    }

    /// The section of a kind in a server, or its subsection of a name, where it is there.
    #[tactic(auto, unfolding(crate::specs::Access::section_named))]
    pub fn find(&self, server: &[u8], section: Section, sub: Option<&[u8]>) -> Option<SectionId>
        ensures found { result ≡ section_named self.now.table server.now section (option_copied sub.entry) }
        ensures stands { IfSome result (HasStatements self.now.table) }
    {
        match self.table.server(server) {
            Some(number) => self.table.find(number, section, sub),
            None => None,
        }
    }

    /// Runs a section that was found. The scope stays in time. After want of memory it is given up.
    pub fn run<W: World>(
        &self,
        alloc: Global,
        id: SectionId,
        scope: &mut Scope,
        world: &mut W,
        dict: &Dict,
    ) -> Result<Code, NoMemory>
        requires stands { HasStatements self.now.table id }
        requires ready { IsReady scope.old (W.state world.old) }
        ensures ok { IfOk result (λ code. Reaches scope.old (W.state world.old) (done_in self.now dict.now id) scope.new (W.state world.new) (λ s. (s, code))) }
        ensures ready { OnOk result (IsReady scope.new (W.state world.new)) }
    {
        self.table.run(alloc, &self.stack, id, scope, world, dict)
    }

    /// Runs authorize, where the server has it, and answers what is decided by then.
    fn authorize<W: World>(
        &self,
        alloc: Global,
        server: &[u8],
        scope: &mut Scope,
        world: &mut W,
        dict: &Dict,
    ) -> Result<Option<Verdict>, NoMemory>
        requires ready { IsReady scope.old (W.state world.old) }
        ensures ok { IfOk result (λ verdict. Reaches scope.old (W.state world.old) (authorized self.now dict.now server.now) scope.new (W.state world.new) (λ s. (s, verdict))) }
        ensures ready { OnOk result (IsReady scope.new (W.state world.new)) }
    {
        match self.find(server, Section::Authorize, None) {
            None => Ok(None),
            Some(id) => {
                let code = self.run(alloc, id, scope, world, dict)?;
                Ok(after_authorize(code))
            }
        }
    }

    /// Where an Auth-Type leads: through a subsection, or to a verdict.
    fn route_of(&self, server: &[u8], name: Option<&[u8]>) -> Result<SectionId, Verdict>
        ensures route { result ≡ route_of self.now.table server.now (option_copied name.entry) }
        ensures stands { IfOk result (HasStatements self.now.table) }
    {
        let Some(name) = name else {
            return Err(Verdict::Reject);
        };
        if name.eq_ignore_ascii_case(b"Accept") {
            return Err(Verdict::Accept);
        }
        if name.eq_ignore_ascii_case(b"Reject") {
            return Err(Verdict::Reject);
        }
        match self.find(server, Section::Authenticate, Some(name)) {
            Some(id) => Ok(id),
            None => Err(Verdict::Reject),
        }
    }

    /// What the first Auth-Type of the control list decides.
    fn authenticate<W: World>(
        &self,
        alloc: Global,
        server: &[u8],
        scope: &mut Scope,
        world: &mut W,
        dict: &Dict,
    ) -> Result<Verdict, NoMemory>
        requires ready { IsReady scope.old (W.state world.old) }
        ensures ok { IfOk result (λ verdict. Reaches scope.old (W.state world.old) (authenticated self.now dict.now server.now) scope.new (W.state world.new) (λ s. (s, verdict))) }
        ensures ready { OnOk result (IsReady scope.new (W.state world.new)) }
    {
        let name = scope.lists.first_text(ListName::Control, AUTH_TYPE);
        let route = self.route_of(server, name);
        match route {
            Ok(id) => {
                let code = self.run(alloc, id, scope, world, dict)?;
                Ok(after_authenticate(code))
            }
            Err(_) => Ok(verdict_of(route)),
        }
    }

    /// Runs authorize, and then authenticate where the request goes on. After want of memory the scope is given up.
    pub fn let_in<W: World>(
        &self,
        alloc: Global,
        server: &[u8],
        scope: &mut Scope,
        world: &mut W,
        dict: &Dict,
    ) -> Result<Verdict, NoMemory>
        requires ready { IsReady scope.old (W.state world.old) }
        ensures ok { IfOk result (λ verdict. Reaches scope.old (W.state world.old) (let_in self.now dict.now server.now) scope.new (W.state world.new) (λ s. (s, verdict))) }
        ensures ready { OnOk result (IsReady scope.new (W.state world.new)) }
    {
        let decided = self.authorize(alloc, server, scope, world, dict)?;
        if goes_on(decided) {
            return self.authenticate(alloc, server, scope, world, dict);
        }
        Ok(settled(decided))
    }
}
