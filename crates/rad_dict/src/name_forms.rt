//! The form of names.

ghost use Rattle.std.specs.Prelude.{◌≡◌};
ghost use Rattle.std.specs.List.{list_all};
ghost use Rattle.std.specs.Str.{all_ascii_digits};
ghost use Rattle.rad_dict.specs.NameForms.{is_name_octet, is_name, is_attr_name, is_value_name};

use rad_text::is_hexadecimal;

fn is_name_octet(octet: u8) -> bool
    ensures { result ≡ is_name_octet octet }
{
    octet.is_ascii_alphanumeric() || matches!(octet, b'-' | b'_' | b'.' | b'/' | b'+')
}

fn all_name_octets(name: &[u8]) -> bool
    ensures { result ≡ list_all is_name_octet name.now }
{
    for octet in name {
        if !is_name_octet(*octet) {
            return false;
        }
    }
    true
}

/// Whether a name has only ASCII letters, digits, `-`, `_`, `.`, `/` and `+`, and at least one.
#[tactic(auto, unfolding(crate::specs::NameForms::is_name))]
fn is_name(name: &[u8]) -> bool
    ensures { result ≡ is_name name.now }
{
    !name.is_empty() && all_name_octets(name)
}

/// Whether an attribute may have this name.
#[tactic(auto, unfolding(crate::specs::NameForms::is_attr_name))]
pub fn is_attr_name(name: &[u8]) -> bool
    ensures { result ≡ is_attr_name name.now }
{
    let (front, _) = name.split_at(name.len().min(5));
    is_name(name) && !front.eq_ignore_ascii_case(b"Attr-")
}

fn all_digits(name: &[u8]) -> bool
    ensures { result ≡ all_ascii_digits name.now }
{
    for octet in name {
        if !octet.is_ascii_digit() {
            return false;
        }
    }
    true
}

/// Whether a value may have this name.
#[tactic(auto, unfolding(crate::specs::NameForms::is_value_name))]
pub fn is_value_name(name: &[u8]) -> bool
    ensures { result ≡ is_value_name name.now }
{
    is_name(name) && !all_digits(name) && !is_hexadecimal(name)
}
