//! What a condition is made of.

use rad_outside::Octets;
use rad_value::{Cmp, Value};
use rad_words::Code;
use unlang_reference::Reference;
use unlang_xlat::Xlat;

/// A side of a comparison.
#[derive(Drop)]
pub enum Side {
    Reference(Reference),
    /// A bare word that is no attribute's name, or a single-quoted text.
    Literal(Octets),
    /// A double-quoted text.
    Expansion(Xlat),
}

/// What a reference is compared with.
#[derive(Drop)]
pub enum Operand {
    Reference(Reference),
    /// A literal, read as a value of the left side's attribute.
    Value(Value),
    /// A double-quoted text, to be read so each time.
    Expansion(Xlat),
}

/// A pattern as it is written between slashes.
#[derive(Drop)]
pub struct Pattern {
    pub source: Octets,
    /// `/i`: letters match in either case.
    pub insensitive: bool,
    /// How many octets of the condition are left from its first slash on.
    pub left: usize,
}

/// A condition without `!`, `&&`, `||` and parentheses.
#[derive(Drop)]
pub enum Atom {
    /// `true`, `false`
    Constant(bool),
    /// A return code's name.
    Returned(Code),
    /// A reference or a quoted text by itself.
    Present(Side),
    /// A comparison of values.
    Values(Reference, Cmp, Operand),
    /// A comparison of texts.
    Texts(Side, Cmp, Side),
    /// `=~`, or `!~` where it is negative.
    Look(Side, bool, Pattern),
}

/// A token of a condition.
#[derive(Drop)]
pub enum Token {
    Not,
    Open,
    Close,
    And,
    Or,
    Atom(Atom),
}
