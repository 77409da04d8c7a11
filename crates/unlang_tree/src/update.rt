//! Lines of updates, after unlang(5).

use rad_pairs::AttrKind;
use rad_value::{EditOp, ListName, Value};
use sqlite_items::Items;
use unlang_reference::Reference;
use unlang_xlat::Xlat;

/// What a line puts into its list, or compares with.
#[derive(Debug, Drop)]
pub enum Right {
    /// A bare word or a single-quoted text: the value of the line's attribute that it was read as.
    Value(Value),
    /// `&[list:]Attr[place]`: the first value that the reference names.
    Reference(Reference),
    /// A double-quoted text: the value that its text is read as when the line is done.
    Expansion(Xlat),
}

/// A line of an update, `[&][list:]Attr operator right`.
#[derive(Debug, Drop)]
pub struct Line {
    /// The list that the line names, or else that of its block.
    pub list: ListName,
    /// The attribute, and the kind that values for it are read as.
    pub attr: AttrKind,
    pub op: EditOp,
    /// Behind `!*` an empty text, whatever stands there.
    pub right: Right,
}

/// The lines of an update, in order.
pub type Lines = Items<Line>;
