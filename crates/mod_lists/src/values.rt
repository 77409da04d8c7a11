ghost use Rattle.std.specs.Prelude.{◌≡◌};
ghost use Rattle.std.specs.Option.{option_copied};
ghost use Rattle.rad_value.specs.PairLists.{list_of};
ghost use Rattle.mod_lists.specs.Values.{octets_of, first_octets};

use rad_value::{ListName, Lists, Value};
use rad_words::AttrId;

/// The octets of a value that is a text or octets.
pub fn octets_of(value: &Value) -> Option<&[u8]>
    ensures { option_copied result ≡ octets_of value.now }
{
    match value {
        Value::Text(text) => Some(text.as_slice()),
        Value::Octets(octets) => Some(octets.as_slice()),
        _ => None,
    }
}

/// The octets of the list's first pair of the attribute. A value that is neither a text nor octets counts as none, and no
/// later pair is looked for.
pub fn first_octets(lists: &Lists, list: ListName, attr: AttrId) -> Option<&[u8]>
    ensures { option_copied result ≡ first_octets attr (list_of lists.now list) }
{
    match lists.nth(list, attr, 0) {
        Some(value) => octets_of(value),
        None => None,
    }
}
