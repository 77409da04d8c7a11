//! The module `files`.

ghost use Rattle.std.specs.Prelude.{◌≡◌, IfOk};
ghost use Rattle.mod_users.specs.Module.{methods_of, does, edits};
ghost use Rattle.rad_outside.specs.Moments.{IsInTime};
ghost use Rattle.mod_users.specs.Framed.{is_lawful};

use crate::Users;
use mod_base::{MethodSet, Module};
use rad_dict::Dict;
use rad_outside::NoMemory;
use rad_value::Scope;
use rad_words::{Code, Section};
use rad_world::World;
use std::alloc::Global;
use unlang_xlat::Xlat;

/// The kind `files`, after rlm_files(5): a users file, and the expansion that names the entry of a request, its key. In
/// authorize the entries that match are done to the control list and the reply list.
#[derive(Drop)]
pub struct FilesModule {
    users: Users,
    key: Xlat,
}

impl FilesModule {
    ghost use Rattle.std.specs.Prelude.{◌≡◌};
    ghost use Rattle.mod_users.specs.Module.{module_by, authorized};

    /// The module of users, which `Users::read` gave, and of a key.
    pub fn new(users: Users, key: Xlat) -> FilesModule
        ensures { result ≡ module_by users key }
    {
        FilesModule { users, key }
    }

    /// What the module does in authorize: `Ok` where an entry matched, `Fail` where a list was full, with the edits before
    /// done, and `Noop` where no entry matched. After `NoMemory` the scope is given up.
    pub fn authorize(&self, alloc: Global, scope: &mut Scope, dict: &Dict) -> Result<Code, NoMemory>
        requires { IsInTime scope.old.moment }
        ensures { IfOk result (λ code. (scope.new, code) ≡ authorized self.now dict.now scope.old) }
    {
        let key = self.key.expand(alloc, scope, dict)?;
        self.users
            .do_entries(alloc, key.as_slice(), &mut scope.lists, dict)
    }
}

impl Module for FilesModule {
    ghost meaning = { record {
      methods = λ m. methods_of;
      edits = λ m. edits m;
      does = λ m dict method situation. does m dict situation;
    } };

    fn methods(&self) -> MethodSet {
        MethodSet {
            methods: [true, false, false, false, false, false],
        }
    }

    fn call<W: World>(
        &self,
        alloc: Global,
        _method: Section,
        scope: &mut Scope,
        _world: &mut W,
        dict: &Dict,
    ) -> Result<Code, NoMemory> {
        self.authorize(alloc, scope, dict)
    }

    ghost lawful = { λ m dict method situation. is_lawful m dict method situation };
}
