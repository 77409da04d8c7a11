//! Tables, and the names of their sections.

ghost use Rattle.std.specs.Prelude.{◌≡◌, true, find, position, IsSome, IfOk, OnErr};
ghost use Rattle.std.specs.Option.{option_copied, option_map};
ghost use Rattle.rad_words.specs.declared.sections.Section.TheVariants.{Accounting};
ghost use Rattle.rad_outside.specs.Moments.{IsInTime};
ghost use Rattle.mod_base.specs.Reaching.{Reaches, Stops};
ghost use Rattle.unlang_code.specs.Run.{section_of};
ghost use Rattle.unlang_code.specs.Sections.{in_32_bits, server_of, subsection_of, section_in, found, statements_of, statements_in, is_server_named, is_named, is_of_kind};
ghost use Rattle.unlang_code.specs.Serving.{Serves};

use crate::observer::{Observer, Silent};
use crate::run::run_section;
use crate::section_id::SectionId;
use mod_base::{Module, Stack, World};
use rad_dict::Dict;
use rad_outside::NoMemory;
use rad_value::Scope;
use rad_words::{Code, Section};
use std::alloc::Global;
use std::marker::Model;
use unlang_tree::{Policies, SectionTree, ServerTree, Statement, Subsection};

/// The sections of a site's servers, ready to run. A table shares the source trees.
#[derive(Drop)]
pub struct Table {
    policies: Policies,
}

impl Model for Table {
    ghost use Rattle.std.specs.Prelude.{List};
    ghost use Rattle.std.specs.Coded.{codes};
    ghost use Rattle.unlang_xlat.specs.contracts.part.Part as part;
    ghost use Rattle.unlang_tree.specs.declared.policies.ServerTree.{ServerTree};
    ghost use Rattle.unlang_tree.specs.contracts.statement.StatementKind as kind;

    ghost Value = { List ServerTree };

    ghost coded = { Prim.hlevel (codes, part.the_row.coded, kind.the_row.coded) };

    ghost view = { λ t. t.policies };
}

/// The table of policies.
pub fn compile(_alloc: Global, policies: &Policies) -> Result<Table, NoMemory>
    ensures { IfOk result (λ table. table ≡ policies.now) }
{
    let policies = policies.try_clone()?;
    Ok(Table { policies })
}

/// A place as a number of 32 bits.
fn in_32_bits(place: usize) -> Option<u32>
    ensures { result ≡ in_32_bits place }
{
    if place < 4294967296 {
        Some(place as u32)
    } else {
        None
    }
}

/// Whether a server has this name.
fn is_server_named(server: &ServerTree, name: &[u8]) -> bool
    ensures { result ≡ is_server_named name.now server.now }
{
    server.name.as_slice() == name
}

/// Whether a subsection has this name, in any case of its ASCII letters.
fn is_named(subsection: &Subsection, name: &[u8]) -> bool
    ensures { result ≡ is_named name.now subsection.now }
{
    subsection.name.as_slice().eq_ignore_ascii_case(name)
}

/// Whether a section is of this kind.
fn is_of_kind(tree: &SectionTree, section: Section) -> bool
    ensures { result ≡ is_of_kind section tree.now }
{
    tree.section as u8 == section as u8
}

/// The place of the server of a name.
fn place_of_server(servers: &[ServerTree], name: &[u8]) -> Option<usize>
    ensures { result ≡ position (is_server_named name.now) servers.now }
{
    servers
        .iter()
        .position(|server| is_server_named(server, name))
}

/// The place of the subsection of a name.
fn place_of_subsection(subsections: &[Subsection], name: &[u8]) -> Option<usize>
    ensures { result ≡ position (is_named name.now) subsections.now }
{
    subsections
        .iter()
        .position(|subsection| is_named(subsection, name))
}

/// The section of a kind: the first.
fn section_of_kind(sections: &[SectionTree], section: Section) -> Option<&SectionTree>
    ensures { option_copied result ≡ find (is_of_kind section) sections.now }
{
    sections.iter().find(|tree| is_of_kind(tree, section))
}

/// The number of the subsection of a name.
#[tactic(auto, unfolding(crate::specs::Sections::subsection_of))]
fn subsection_of(subsections: &[Subsection], name: &[u8]) -> Option<u32>
    ensures { result ≡ subsection_of subsections.now name.now }
{
    match place_of_subsection(subsections, name) {
        Some(place) => in_32_bits(place),
        None => None,
    }
}

/// The statements of a section, or of its subsection of a number.
fn statements_in(section: &SectionTree, sub: Option<u32>) -> Option<&[Statement]>
    ensures { option_copied result ≡ statements_in sub section.now }
{
    match sub {
        None => Some(section.statements.as_slice()),
        Some(number) => match section.subsections.get(number as usize) {
            Some(subsection) => Some(subsection.statements.as_slice()),
            None => None,
        },
    }
}

impl Table {
    /// The number of the server of a name; names are compared octet by octet.
    #[tactic(auto, unfolding(crate::specs::Sections::server_of))]
    pub fn server(&self, name: &[u8]) -> Option<u32>
        ensures { result ≡ server_of self.now name.now }
    {
        match place_of_server(self.policies.servers(), name) {
            Some(place) => in_32_bits(place),
            None => None,
        }
    }

    /// The section of a kind in a server.
    #[tactic(auto, unfolding(crate::specs::Sections::section_in))]
    fn section(&self, server: u32, section: Section) -> Option<&SectionTree>
        ensures { option_copied result ≡ section_in self.now server section }
    {
        match self.policies.servers().get(server as usize) {
            Some(tree) => section_of_kind(tree.sections.as_slice(), section),
            None => None,
        }
    }

    /// The section of a kind in a server, where it is there, or its subsection of a name, compared without regard to
    /// ASCII case.
    #[tactic(auto, unfolding(crate::specs::Sections::found))]
    pub fn find(&self, server: u32, section: Section, sub: Option<&[u8]>) -> Option<SectionId>
        ensures { result ≡ found self.now server section (option_copied sub.entry) }
    {
        let tree = self.section(server, section)?;
        match sub {
            None => Some(SectionId {
                server,
                section,
                sub: None,
            }),
            Some(name) => Some(SectionId {
                server,
                section,
                sub: Some(subsection_of(tree.subsections.as_slice(), name)?),
            }),
        }
    }

    /// The statements that a section's name stands for.
    #[tactic(auto, unfolding(crate::specs::Sections::statements_of))]
    fn statements(&self, id: SectionId) -> Option<&[Statement]>
        ensures { option_copied result ≡ statements_of self.now id }
    {
        match self.section(id.server, id.section) {
            Some(tree) => statements_in(tree, id.sub),
            None => None,
        }
    }

    /// Runs a section over a request, and answers its code. After want of memory the scope is given up, and the effects
    /// that were made are the first of such a run.
    pub fn run<M: Module, W: World>(
        &self,
        alloc: Global,
        stack: &Stack<M>,
        section: SectionId,
        scope: &mut Scope,
        world: &mut W,
        dict: &Dict,
    ) -> Result<Code, NoMemory>
        requires served { Serves M.meaning stack.now self.now }
        requires found { IsSome (statements_of self.now section) }
        requires in_time { IsInTime scope.old.moment }
        requires changes { section.section ≡ Accounting → (W.state world.old).takes_changes ≡ true }
        ensures ok { IfOk result (λ code. Reaches scope.old (W.state world.old) (section_of M.meaning stack.now dict.now self.now section) scope.new (W.state world.new) (λ s. (s, code))) }
        ensures memory { OnErr result (Stops scope.old (W.state world.old) (λ s. (section_of M.meaning stack.now dict.now self.now section s).0.effects) (W.state world.new)) }
    {
        self.run_observed(alloc, stack, section, scope, world, dict, &mut Silent)
    }

    /// The same, watched by an observer.
    pub fn run_observed<M: Module, W: World, O: Observer>(
        &self,
        alloc: Global,
        stack: &Stack<M>,
        section: SectionId,
        scope: &mut Scope,
        world: &mut W,
        dict: &Dict,
        observer: &mut O,
    ) -> Result<Code, NoMemory>
        requires served { Serves M.meaning stack.now self.now }
        requires found { IsSome (statements_of self.now section) }
        requires in_time { IsInTime scope.old.moment }
        requires changes { section.section ≡ Accounting → (W.state world.old).takes_changes ≡ true }
        ensures ok { IfOk result (λ code. Reaches scope.old (W.state world.old) (section_of M.meaning stack.now dict.now self.now section) scope.new (W.state world.new) (λ s. (s, code))) }
        ensures memory { OnErr result (Stops scope.old (W.state world.old) (λ s. (section_of M.meaning stack.now dict.now self.now section s).0.effects) (W.state world.new)) }
    {
        let Some(statements) = self.statements(section) else {
            unreachable!()
        };
        run_section(
            alloc,
            stack,
            section.section,
            statements,
            scope,
            world,
            dict,
            observer,
        )
    }
}
