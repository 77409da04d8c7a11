//! The modules of a site, kind by kind.

ghost use Rattle.rad_modules.specs.SiteModules.{site_module};
ghost use Rattle.rad_modules.specs.SiteLaws.{site_module_lawful};

use mod_auth::{Chap, Pap};
use mod_base::{Always, MethodSet, Module, World};
use mod_filter::AttrFilter;
use mod_realm::RealmModule;
use mod_users::FilesModule;
use rad_dict::Dict;
use rad_outside::NoMemory;
use rad_value::Scope;
use rad_words::{Code, Section};
use std::alloc::Global;

/// A module of a site.
#[derive(Drop)]
pub enum SiteModule {
    /// `always { rcode = CODE }`
    Always(Always),
    /// `files { filename = NAME, key = TEXT }`
    Files(FilesModule),
    /// `pap { }`
    Pap(Pap),
    /// `chap { }`
    Chap(Chap),
    /// `realm { format = suffix, delimiter = OCTET }`
    Realm(RealmModule),
    /// `attr_filter { filename = NAME, key = TEXT }`
    Filter(AttrFilter),
}

impl Module for SiteModule {
    ghost meaning = { site_module };

    fn methods(&self) -> MethodSet {
        match self {
            SiteModule::Always(always) => always.methods(),
            SiteModule::Files(files) => files.methods(),
            SiteModule::Pap(pap) => pap.methods(),
            SiteModule::Chap(chap) => chap.methods(),
            SiteModule::Realm(realm) => realm.methods(),
            SiteModule::Filter(filter) => filter.methods(),
        }
    }

    fn call<W: World>(
        &self,
        alloc: Global,
        method: Section,
        scope: &mut Scope,
        world: &mut W,
        dict: &Dict,
    ) -> Result<Code, NoMemory> {
        match self {
            SiteModule::Always(always) => always.call(alloc, method, scope, world, dict),
            SiteModule::Files(files) => files.call(alloc, method, scope, world, dict),
            SiteModule::Pap(pap) => pap.call(alloc, method, scope, world, dict),
            SiteModule::Chap(chap) => chap.call(alloc, method, scope, world, dict),
            SiteModule::Realm(realm) => realm.call(alloc, method, scope, world, dict),
            SiteModule::Filter(filter) => filter.call(alloc, method, scope, world, dict),
        }
    }

    ghost lawful = { site_module_lawful };
}
