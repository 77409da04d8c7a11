//! The realms of a site, by name.

ghost use Rattle.std.specs.Prelude.{◌≡◌, [], ◌∷◌, ◌++◌, ℕ, true, false, map, is_some, IfOk, OnOk, OnErr};
ghost use Rattle.std.specs.Char.{to_ascii_lowercase};
ghost use Rattle.std.specs.Option.{option_copied};
ghost use Rattle.mod_realm.specs.Realms.{realm_of, realm_for};
ghost use Rattle.mod_realm.specs.declared.fault.RealmFault.TheVariants as faults;

use crate::fault::RealmFault;
use indexmap::IndexMap;
use rad_outside::{NoMemory, Octets};
use std::alloc::Global;
use std::marker::Model;

/// The name of the realm that serves where none of the name is there.
const DEFAULT: &[u8] = b"DEFAULT";

/// A realm, under the name as it is configured.
#[derive(Debug, Drop)]
pub struct Realm {
    pub name: Octets,
    /// Whether the user's name stays whole.
    pub nostrip: bool,
}

/// The realms of a site, no two of one name, case aside. A name is found without a look at the others.
#[derive(Drop)]
pub struct Realms {
    alloc: Global,
    realms: IndexMap<Vec<u8>, Realm>,
}

impl Model for Realms {
    ghost use Rattle.std.specs.Prelude.{List, map};
    ghost use Rattle.mod_realm.specs.Realms.{Realm, entry_realm, AreKeyed};

    ghost Value = { List Realm };

    ghost view = { λ r. map entry_realm r.realms.entries };

    ghost invariant = { λ r. AreKeyed r.realms.entries };
}

/// A name in lower case.
fn lowered(alloc: Global, name: &[u8]) -> Result<Vec<u8>, NoMemory>
    ensures { IfOk result (λ key. key.items ≡ map to_ascii_lowercase name.now) }
{
    Ok(name.to_ascii_lowercase(alloc)?)
}

impl Realms {
    /// No realms.
    pub fn new(alloc: Global) -> Realms
        ensures { result ≡ [] }
    {
        Realms {
            alloc,
            realms: IndexMap::new(alloc),
        }
    }

    /// Adds a realm, as a site's `realm NAME { nostrip }`. Names are compared without regard to ASCII case.
    pub fn add(&mut self, name: &[u8], nostrip: bool) -> Result<(), RealmFault>
        ensures free { OnOk result (is_some (realm_of self.old name.now) ≡ false) }
        ensures added { OnOk result (self.new ≡ self.old ++ record { name = name.now; nostrip = nostrip } ∷ []) }
        ensures taken { result ≡ Err faults.Taken → is_some (realm_of self.old name.now) ≡ true }
        ensures err { OnErr result (self.new ≡ self.old) }
    {
        let key = lowered(self.alloc, name)?;
        if self.realms.get_index_of(key.as_slice()).is_some() {
            return Err(RealmFault::Taken);
        }
        let name = Octets::of(self.alloc, name)?;
        self.realms.insert(key, Realm { name, nostrip })?;
        Ok(())
    }

    /// The realm of a name, case aside.
    fn find(&self, alloc: Global, name: &[u8]) -> Result<Option<&Realm>, NoMemory>
        ensures { IfOk result (λ realm. option_copied realm ≡ realm_of self.now name.now) }
    {
        let key = lowered(alloc, name)?;
        Ok(self.realms.get(key.as_slice()))
    }

    /// Whether there is a realm of a name, case aside.
    pub fn has(&self, alloc: Global, name: &[u8]) -> Result<bool, NoMemory>
        ensures { IfOk result (λ there. there ≡ is_some (realm_of self.now name.now)) }
    {
        Ok(self.find(alloc, name)?.is_some())
    }

    /// The realm of a name, case aside, or else that of the name DEFAULT.
    pub(crate) fn find_or_default(
        &self,
        alloc: Global,
        name: &[u8],
    ) -> Result<Option<&Realm>, NoMemory>
        ensures { IfOk result (λ realm. option_copied realm ≡ realm_for self.now name.now) }
    {
        match self.find(alloc, name)? {
            Some(realm) => Ok(Some(realm)),
            None => self.find(alloc, DEFAULT),
        }
    }
}
