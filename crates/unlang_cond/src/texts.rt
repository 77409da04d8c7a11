//! Texts that are compared.

ghost use Rattle.std.specs.Prelude.{◌≡◌};
ghost use Rattle.rad_value.specs.Comparison.{holds};
ghost use Rattle.unlang_cond.specs.Texts.{number_in, number_order, order_of, texts_hold};

use rad_text::{digit_value, is_digit};
use rad_value::Cmp;
use std::cmp::Ordering;

/// The number that a text writes in 1 to 38 decimal digits.
fn number_in(text: &[u8]) -> Option<u128>
    ensures { result ≡ number_in text.now }
{
    if text.is_empty() || text.len() > 38 {
        return None;
    }
    let mut number: u128 = 0;
    let mut rest = text;
    while let Some((octet, after)) = rest.split_first() {
        if !is_digit(*octet, 10) {
            return None;
        }
        number = number * 10 + u128::from(digit_value(*octet));
        rest = after;
    }
    Some(number)
}

/// Whether the comparison holds of two things in this order.
fn holds(cmp: Cmp, order: Ordering) -> bool
    ensures { result ≡ holds cmp order }
{
    match cmp {
        Cmp::Eq => order == Ordering::Equal,
        Cmp::Ne => order != Ordering::Equal,
        Cmp::Lt => order == Ordering::Less,
        Cmp::Le => order != Ordering::Greater,
        Cmp::Gt => order == Ordering::Greater,
        Cmp::Ge => order != Ordering::Less,
    }
}

/// The order of two texts: by their numbers, where both write one, else by their octets.
fn number_order(left: &[u8], right: &[u8]) -> Ordering
    ensures { result ≡ number_order left.now right.now }
{
    match (number_in(left), number_in(right)) {
        (Some(a), Some(b)) => a.cmp(&b),
        _ => left.cmp(right),
    }
}

/// The order of two texts that a comparison asks for.
fn order_of(cmp: Cmp, left: &[u8], right: &[u8]) -> Ordering
    ensures { result ≡ order_of cmp left.now right.now }
{
    match cmp {
        Cmp::Eq | Cmp::Ne => left.cmp(right),
        Cmp::Lt | Cmp::Le | Cmp::Gt | Cmp::Ge => number_order(left, right),
    }
}

/// Whether the comparison holds of two texts.
pub fn texts_hold(left: &[u8], cmp: Cmp, right: &[u8]) -> bool
    ensures { result ≡ texts_hold left.now cmp right.now }
{
    holds(cmp, order_of(cmp, left, right))
}
