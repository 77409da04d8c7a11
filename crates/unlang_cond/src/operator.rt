//! Operators that follow the left side of a comparison.

ghost use Rattle.std.specs.Prelude.{◌≡◌, ◌≤◌, ◌<◌, length};
ghost use Rattle.unlang_cond.specs.Operators.{long_relation, short_relation, relation_of, relation_len, relation_at};

use rad_conf::sign::{octet_at, operator_at};
use rad_value::Cmp;

/// What stands behind the left side of a comparison.
#[derive(Clone, Copy)]
pub enum Relation {
    /// No operator.
    Nothing,
    /// `==`, `!=`, `<`, `<=`, `>` or `>=`
    Compares(Cmp),
    /// `=~`, or `!~` where it is negative.
    Looks(bool),
    /// An operator that is none of a condition.
    Other,
}

impl Relation {
    /// How many octets it has.
    pub fn len(self) -> usize
        ensures { result ≡ relation_len self }
    {
        match self {
            Relation::Nothing | Relation::Other => 0,
            Relation::Compares(Cmp::Lt | Cmp::Gt) => 1,
            Relation::Compares(_) | Relation::Looks(_) => 2,
        }
    }
}

/// An operator of two octets.
#[tactic(auto, unfolding(crate::specs::Operators::long_relation))]
fn long_relation(octet: u8, next: u8) -> Option<Relation>
    ensures { result ≡ long_relation octet next }
{
    match (octet, next) {
        (b'=', b'=') => Some(Relation::Compares(Cmp::Eq)),
        (b'!', b'=') => Some(Relation::Compares(Cmp::Ne)),
        (b'<', b'=') => Some(Relation::Compares(Cmp::Le)),
        (b'>', b'=') => Some(Relation::Compares(Cmp::Ge)),
        (b'=', b'~') => Some(Relation::Looks(false)),
        (b'!', b'~') => Some(Relation::Looks(true)),
        _ => None,
    }
}

/// An operator of one octet.
fn short_relation(octet: u8) -> Relation
    ensures { result ≡ short_relation octet }
{
    match octet {
        b'<' => Relation::Compares(Cmp::Lt),
        b'>' => Relation::Compares(Cmp::Gt),
        _ => Relation::Other,
    }
}

/// The longest operator that begins with an octet, by the next one.
#[tactic(auto, unfolding(crate::specs::Operators::relation_of))]
fn relation_of(octet: u8, next: u8) -> Relation
    ensures { result ≡ relation_of octet next }
{
    if operator_at(octet, next) == 0 {
        return Relation::Nothing;
    }
    match long_relation(octet, next) {
        Some(relation) => relation,
        None => short_relation(octet),
    }
}

/// The longest operator at the front, and what follows it.
#[tactic(auto, unfolding(crate::specs::Operators::relation_at))]
pub fn relation_at(text: &[u8]) -> (Relation, &[u8])
    ensures relation { result.0 ≡ (relation_at text.now).0 }
    ensures rest { result.1.now ≡ (relation_at text.now).1 }
    ensures shorter { length result.1.now ≤ length text.now }
{
    let relation = relation_of(octet_at(text, 0), octet_at(text, 1));
    let (_, rest) = text.split_at(relation.len().min(text.len()));
    (relation, rest)
}
