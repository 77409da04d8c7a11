//! The source trees of a site's servers.

ghost use Rattle.std.specs.Prelude.{◌≡◌, IfOk};

use crate::statement::Statements;
use rad_outside::{NoMemory, Octets};
use rad_words::Section;
use sqlite_items::Items;
use std::alloc::Global;
use std::marker::Model;
use std::sync::Arc;

/// A subsection of a section, as `Auth-Type NAME { .. }` in authenticate.
#[derive(Drop)]
pub struct Subsection {
    pub name: Octets,
    pub statements: Statements,
}

/// The subsections of a section, in order. The first of a name counts.
pub type Subsections = Items<Subsection>;

/// A section of a server: the statements that run with it, and its subsections.
#[derive(Drop)]
pub struct SectionTree {
    pub section: Section,
    pub statements: Statements,
    pub subsections: Subsections,
}

/// The sections of a server, in order. The first of a kind counts.
pub type Sections = Items<SectionTree>;

/// A virtual server: its name and its sections.
#[derive(Drop)]
pub struct ServerTree {
    pub name: Octets,
    pub sections: Sections,
}

/// The source trees of all servers of a site, in the order of the configuration. They are shared, so that a second
/// holder of them copies nothing.
#[derive(Drop)]
pub struct Policies {
    servers: Arc<Items<ServerTree>>,
}

impl Model for Policies {
    ghost use Rattle.std.specs.Prelude.{List};
    ghost use Rattle.std.specs.Arc.{arc_value};
    ghost use Rattle.std.specs.Coded.{codes};
    ghost use Rattle.unlang_xlat.specs.contracts.part.Part as part;
    ghost use Rattle.unlang_tree.specs.declared.policies.ServerTree.{ServerTree};
    ghost use Rattle.unlang_tree.specs.contracts.statement.StatementKind as kind;

    ghost Value = { List ServerTree };

    ghost coded = { Prim.hlevel (codes, part.the_row.coded, kind.the_row.coded) };

    ghost view = { λ p. arc_value p.servers };
}

impl Policies {
    /// The policies of these servers.
    pub fn of(alloc: Global, servers: Items<ServerTree>) -> Result<Policies, NoMemory>
        ensures { IfOk result (λ policies. policies ≡ servers) }
    {
        let servers = Arc::new(alloc, servers)?;
        Ok(Policies { servers })
    }

    /// The same policies, held once more.
    pub fn try_clone(&self) -> Result<Policies, NoMemory>
        ensures { IfOk result (λ policies. policies ≡ self.now) }
    {
        let servers = Arc::try_clone(&self.servers)?;
        Ok(Policies { servers })
    }

    /// The servers, in the order of the configuration.
    pub fn servers(&self) -> &[ServerTree]
        ensures { result.now ≡ self.now }
    {
        self.servers.as_slice()
    }
}
