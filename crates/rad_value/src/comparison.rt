ghost use Rattle.std.specs.Prelude.{◌≡◌};
ghost use Rattle.rad_value.specs.Comparison.{comparison, holds, is_equal};

use crate::Value;
use std::cmp::Ordering;

/// A comparison of two values, as unlang(5) and users(5) write them: `==`, `!=`, `<`, `<=`, `>` and `>=`.
#[derive(Clone, Copy, Debug, PartialEq, Eq)]
pub enum Cmp {
    Eq,
    Ne,
    Lt,
    Le,
    Gt,
    Ge,
}

/// Whether the comparison holds of two values of one kind, and `None` for two of different kinds. Numbers
/// go by size, texts and octets by their bytes.
pub fn compare(left: &Value, cmp: Cmp, right: &Value) -> Option<bool>
    ensures { result ≡ comparison left.now cmp right.now }
{
    let order = match (left, right) {
        (Value::Text(a), Value::Text(b)) => a.as_slice().cmp(b.as_slice()),
        (Value::Octets(a), Value::Octets(b)) => a.as_slice().cmp(b.as_slice()),
        (Value::Addr(a), Value::Addr(b)) => a.cmp(b),
        (Value::Number(a), Value::Number(b)) => a.cmp(b),
        (Value::Date(a), Value::Date(b)) => a.cmp(b),
        (Value::Byte(a), Value::Byte(b)) => a.cmp(b),
        (Value::Short(a), Value::Short(b)) => a.cmp(b),
        _ => return None,
    };
    Some(holds(cmp, order))
}

/// Whether two values are equal: of one kind, with the same number or the same bytes.
pub(crate) fn is_equal(left: &Value, right: &Value) -> bool
    ensures { result ≡ is_equal left.now right.now }
{
    compare(left, Cmp::Eq, right).unwrap_or(false)
}

fn holds(cmp: Cmp, order: Ordering) -> bool
    ensures { result ≡ holds cmp order }
{
    match cmp {
        Cmp::Eq => order == Ordering::Equal,
        Cmp::Ne => order != Ordering::Equal,
        Cmp::Lt => order == Ordering::Less,
        Cmp::Le => order != Ordering::Greater,
        Cmp::Gt => order == Ordering::Greater,
        Cmp::Ge => order != Ordering::Less,
    }
}
