use mod_base::Stack;
use rad_modules::SiteModule;
use std::marker::Model;
use unlang_code::Table;

/// The policies of a site: its modules, and the table of its servers' sections. Each call of the table is of a module that
/// is there and has a method for the section.
#[derive(Drop)]
pub struct Policies {
    pub stack: Stack<SiteModule>,
    pub table: Table,
}

impl Model for Policies {
    ghost use Rattle.unlang_code.specs.Serving.{Serves};
    ghost use Rattle.rad_access.specs.Policies.{Policies};
    ghost use Rattle.rad_modules.specs.SiteModules.{site_module};
    ghost use Rattle.std.specs.Coded.{codes};
    ghost use Rattle.unlang_xlat.specs.contracts.part.Part as part;
    ghost use Rattle.unlang_tree.specs.contracts.statement.StatementKind as kind;

    ghost Value = { Policies };

    ghost coded = { Prim.hlevel (codes, part.the_row.coded, kind.the_row.coded) };

    ghost view = { λ p. record {
      stack = p.stack;
      table = p.table;
    } };

    ghost invariant = { λ p. Serves site_module p.stack p.table };
}
