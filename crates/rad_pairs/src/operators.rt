//! Operators at the front of a text.

ghost use Rattle.std.specs.Prelude.{◌≡◌, ◌<◌, length, IfSome};
ghost use Rattle.std.specs.Option.{option_map};
ghost use Rattle.rad_pairs.specs.Operators.{long_operator, short_operator, operator_at};

use crate::PairOp;

/// Which operators a text of pairs takes.
#[derive(Clone, Copy, Debug, PartialEq, Eq)]
pub enum Taking {
    /// All of a pair.
    Every,
    /// `=` alone.
    Plain,
}

/// One of the fourteen operators of site files.
#[derive(Clone, Copy, Debug, PartialEq, Eq)]
pub enum Operator {
    /// An operator of a pair.
    OfPair(PairOp),
    /// `-=`, which is none of a pair.
    Remove,
}

/// An operator of two octets.
#[tactic(auto, unfolding(crate::specs::Operators::long_operator))]
fn long_operator(first: u8, second: u8) -> Option<Operator>
    ensures { result ≡ long_operator first second }
{
    match (first, second) {
        (b':', b'=') => Some(Operator::OfPair(PairOp::Set)),
        (b'+', b'=') => Some(Operator::OfPair(PairOp::Append)),
        (b'-', b'=') => Some(Operator::Remove),
        (b'=', b'=') => Some(Operator::OfPair(PairOp::Equal)),
        (b'!', b'=') => Some(Operator::OfPair(PairOp::Differs)),
        (b'<', b'=') => Some(Operator::OfPair(PairOp::Le)),
        (b'>', b'=') => Some(Operator::OfPair(PairOp::Ge)),
        (b'=', b'~') => Some(Operator::OfPair(PairOp::Match)),
        (b'!', b'~') => Some(Operator::OfPair(PairOp::NoMatch)),
        (b'=', b'*') => Some(Operator::OfPair(PairOp::Any)),
        (b'!', b'*') => Some(Operator::OfPair(PairOp::None)),
        _ => None,
    }
}

/// An operator of one octet.
#[tactic(auto, unfolding(crate::specs::Operators::short_operator))]
fn short_operator(octet: u8) -> Option<Operator>
    ensures { result ≡ short_operator octet }
{
    match octet {
        b'=' => Some(Operator::OfPair(PairOp::Eq)),
        b'<' => Some(Operator::OfPair(PairOp::Lt)),
        b'>' => Some(Operator::OfPair(PairOp::Gt)),
        _ => None,
    }
}

/// The longest operator at the front, and what follows it.
#[tactic(auto, unfolding(crate::specs::Operators::operator_at))]
pub fn operator_at(text: &[u8]) -> Option<(Operator, &[u8])>
    ensures exact { option_map (λ x. (x.0, x.1.now)) result ≡ operator_at text.now }
    ensures shorter { IfSome result (λ x. length x.1.now < length text.now) }
{
    let (first, rest) = text.split_first()?;
    let second = rest.first().copied().unwrap_or(0);
    if let Some(operator) = long_operator(*first, second) {
        let (_, after) = rest.split_at(rest.len().min(1));
        return Some((operator, after));
    }
    let operator = short_operator(*first)?;
    Some((operator, rest))
}
