//! An expansion that is read once and expanded often.

ghost use Rattle.std.specs.Prelude.{◌≡◌, IfOk};
ghost use Rattle.rad_text.specs.Answers.{IsAnswer};
ghost use Rattle.rad_outside.specs.Moments.{IsInTime};
ghost use Rattle.unlang_xlat.specs.Faults.{parsed, says};
ghost use Rattle.unlang_xlat.specs.Texts.{expanded};
ghost use Rattle.unlang_xlat.specs.Paths.{path_expanded};

use crate::XlatFault;
use crate::fault::fault_at;
use crate::part::Part;
use crate::paths::cut_path;
use crate::reading::parts_in;
use crate::texts::cut_text;
use rad_dict::Dict;
use rad_outside::{NoMemory, Octets};
use rad_value::Scope;
use sqlite_items::Items;
use std::alloc::Global;
use std::marker::Model;

/// How many parts in braces stand within one another at most.
const LEVELS: u32 = 32;

/// A text with parts, read. Contracts see it as the list of its parts.
#[derive(Debug, Drop)]
pub struct Xlat {
    parts: Items<Part>,
}

impl Model for Xlat {
    ghost use Rattle.std.specs.Prelude.{List};
    ghost use Rattle.std.specs.Coded.{codes};
    ghost use Rattle.unlang_xlat.specs.contracts.part.Part as part;
    ghost use Rattle.unlang_xlat.specs.declared.part.Part.{Part};

    ghost Value = { List Part };

    ghost coded = { Prim.hlevel (codes, part.the_row.coded) };

    ghost view = { λ x. x.parts };
}

impl Xlat {
    /// The expansion that a text writes, under the names of a dictionary; or the first fault of the text, with the offset
    /// of the `%` of its part. At most 32 parts in braces stand within one another.
    pub fn parse(alloc: Global, text: &[u8], dict: &Dict) -> Result<Xlat, XlatFault>
        ensures { IsAnswer says (parsed text.now dict.now) result }
    {
        match parts_in(alloc, LEVELS, None, text, dict) {
            Ok((parts, _)) => Ok(Xlat { parts }),
            Err(error) => Err(fault_at(text, error)),
        }
    }

    /// The text of the expansion in a scope, cut at 4,096 octets. A part without a value is empty; dates are of the
    /// scope's moment, in UTC.
    pub fn expand(&self, alloc: Global, scope: &Scope, dict: &Dict) -> Result<Octets, NoMemory>
        requires { IsInTime scope.now.moment }
        ensures { IfOk result (λ text. text ≡ expanded scope.now dict.now self.now) }
    {
        let text = cut_text(alloc, self.parts.as_slice(), scope, dict)?;
        Ok(Octets::from_vec(text))
    }

    /// The same as the path of a file: in the text of each part in braces that stands in no other part, an octet that isn't
    /// an ASCII letter, a digit, `.`, `-` or `_` is `_`, and so is a `.` that begins that text.
    pub fn expand_path(&self, alloc: Global, scope: &Scope, dict: &Dict) -> Result<Octets, NoMemory>
        requires { IsInTime scope.now.moment }
        ensures { IfOk result (λ text. text ≡ path_expanded scope.now dict.now self.now) }
    {
        let text = cut_path(alloc, self.parts.as_slice(), scope, dict)?;
        Ok(Octets::from_vec(text))
    }
}
