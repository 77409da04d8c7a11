use crate::Value;
use rad_outside::NoMemory;
use rad_words::AttrId;
use std::alloc::AllocFailed;
use thiserror::Error;

/// One of the three lists that a policy works on.
#[derive(Clone, Copy, Debug, PartialEq, Eq)]
pub enum ListName {
    Request,
    Reply,
    Control,
}

/// What an edit does, as unlang(5) writes it in `update`.
#[derive(Clone, Copy, Debug, PartialEq, Eq)]
pub enum EditOp {
    /// `=`: adds the pair where there is none of its attribute.
    AddIfNone,
    /// `:=`: puts the pair in the place of the first of its attribute and takes the others away, or adds
    /// it where there is none.
    Set,
    /// `+=`: adds the pair.
    Append,
    /// `-=`: takes the pairs of its attribute away that have its value.
    Remove,
    /// `!*`: takes the pairs of its attribute away, whatever their values.
    RemoveAll,
    /// `==`: takes the pairs of its attribute away that have another value.
    Keep,
}

/// One line of an `update` block: a pair, the list that it goes to, and how.
#[derive(Debug, Drop)]
pub struct Edit {
    pub list: ListName,
    pub attr: AttrId,
    pub op: EditOp,
    pub value: Value,
}

/// An edit was done; `length` is how many pairs its list has now.
#[derive(Clone, Copy, Debug, PartialEq, Eq)]
pub struct Updated {
    pub length: u32,
}

/// Why an edit was not done. The lists are as they were.
#[derive(Clone, Copy, Debug, PartialEq, Eq, Error)]
pub enum EditFault {
    /// It would have added a pair to a list of so many pairs, 512 or more.
    #[error("ListFull")]
    ListFull(u32),
    #[error("NoMemory")]
    NoMemory,
}

impl From<NoMemory> for EditFault {
    ghost use Rattle.std.specs.Prelude.{◌≡◌};
    ghost use Rattle.rad_value.specs.declared.edits.EditFault.TheVariants.{NoMemory};

    ghost from_gives = { λ _ e. e ≡ NoMemory };

    fn from(_e: NoMemory) -> EditFault {
        EditFault::NoMemory
    }
}

impl<T: Drop> From<AllocFailed<T>> for EditFault {
    ghost use Rattle.std.specs.Prelude.{◌≡◌};
    ghost use Rattle.rad_value.specs.declared.edits.EditFault.TheVariants.{NoMemory};

    ghost from_gives = { λ _ e. e ≡ NoMemory };

    fn from(_e: AllocFailed<T>) -> EditFault {
        EditFault::NoMemory
    }
}
