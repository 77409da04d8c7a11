//! The instances of a site's modules as they are gathered.

ghost use Rattle.std.specs.Prelude.{◌≡◌, true, false, IfOk};
ghost use Rattle.std.specs.Arc.{arc_value};
ghost use Rattle.rad_build.specs.Modules.{no_modules, is_taken, has_room, and_module, with_code, with_three, with_codes};

use crate::codes::is_code_name;
use mod_base::{Always, Module, Stack};
use mod_realm::Realms;
use rad_modules::SiteModule;
use rad_outside::NoMemory;
use rad_words::Code;
use std::alloc::Global;
use std::marker::Model;
use std::sync::Arc;
use unlang_tree::Instances;

/// How many instances may stand whose names are no return codes'.
const MOST_OTHERS: u32 = 1015;

/// How many instances may stand.
const MOST: u32 = 1024;

/// The realms of a site, its instances, by name, and their modules, by number.
#[derive(Drop)]
pub struct Modules {
    realms: Arc<Realms>,
    pub instances: Instances,
    pub stack: Stack<SiteModule>,
    others: u32,
}

impl Model for Modules {
    ghost use Rattle.std.specs.Prelude.{◌≤◌};
    ghost use Rattle.std.specs.Arc.{arc_value};
    ghost use Rattle.rad_build.specs.Modules.{Modules, AreInStep};
    ghost use Rattle.std.specs.Coded.{codes};
    ghost use Rattle.unlang_xlat.specs.contracts.part.Part as part;

    ghost Value = { Modules };

    ghost coded = { Prim.hlevel (codes, part.the_row.coded) };

    ghost view = { λ m. record {
      realms = arc_value m.realms;
      instances = m.instances;
      stack = m.stack;
      others = m.others;
    } };

    ghost invariant = { λ m. record {
      in_step : AreInStep m.instances m.stack;
      few : m.others ≤ 1015;
    } };
}

impl Modules {
    /// No modules, of a site with these realms.
    pub fn new(alloc: Global, realms: Arc<Realms>) -> Modules
        ensures { result ≡ no_modules (arc_value realms) }
    {
        Modules {
            realms,
            instances: Instances::new(alloc),
            stack: Stack::new(alloc),
            others: 0,
        }
    }

    /// Whether an instance of this name stands.
    pub fn is_taken(&self, name: &[u8]) -> bool
        ensures { result ≡ is_taken self.now name.now }
    {
        self.instances.find(name).is_some()
    }

    /// The site's realms.
    pub fn realms(&self) -> &Arc<Realms>
        ensures { arc_value result.now ≡ self.now.realms }
    {
        &self.realms
    }

    /// Whether there is room for an instance of this name, which isn't taken.
    pub fn has_room(&self, name: &[u8]) -> bool
        ensures { result ≡ has_room self.now name.now }
    {
        self.instances.len() < MOST && (is_code_name(name) || self.others < MOST_OTHERS)
    }

    /// The modules with one more by this name.
    pub fn with(self, name: &[u8], module: SiteModule) -> Result<Modules, NoMemory>
        requires free { is_taken self name.now ≡ false }
        requires room { has_room self name.now ≡ true }
        ensures { IfOk result (λ modules. modules ≡ and_module self name.now «module») }
    {
        let Modules {
            realms,
            mut instances,
            mut stack,
            others,
        } = self;
        // The name is free and there is room, so only memory can be wanting.
        if instances.add(name, module.methods()).is_err() {
            return Err(NoMemory);
        }
        stack.push(module)?;
        let others = if is_code_name(name) {
            others
        } else {
            others + 1
        };
        Ok(Modules {
            realms,
            instances,
            stack,
            others,
        })
    }

    /// The modules with that of a return code, where no instance of its name was configured.
    #[tactic(auto, unfolding(crate::specs::Modules::with_code))]
    fn with_code(self, code: Code) -> Result<Modules, NoMemory>
        ensures { IfOk result (λ modules. modules ≡ with_code self code) }
    {
        let name = code.name();
        if self.is_taken(name) || !self.has_room(name) {
            return Ok(self);
        }
        self.with(name, SiteModule::Always(Always { code }))
    }

    /// The modules with those of three return codes.
    fn with_three(self, first: Code, second: Code, third: Code) -> Result<Modules, NoMemory>
        ensures { IfOk result (λ modules. modules ≡ with_three self first second third) }
    {
        let known = self.with_code(first)?;
        let known = known.with_code(second)?;
        known.with_code(third)
    }

    /// The modules with those of the nine return codes.
    pub fn with_codes(self) -> Result<Modules, NoMemory>
        ensures { IfOk result (λ modules. modules ≡ with_codes self) }
    {
        let known = self.with_three(Code::Reject, Code::Fail, Code::Ok)?;
        let known = known.with_three(Code::Handled, Code::Invalid, Code::Userlock)?;
        known.with_three(Code::Notfound, Code::Noop, Code::Updated)
    }
}
