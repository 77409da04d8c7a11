//! The keys by which rows are indexed.

ghost use Rattle.std.specs.Prelude.{◌≡◌, ℕ, ◌<◌, ◌^◌};
ghost use Rattle.rad_dict.specs.Keys.{key_with, name_key, space_key, attr_key};

use rad_words::{AttrId, Space};

/// A key that goes on with a number.
#[tactic(auto, unfolding(crate::specs::Keys::key_with))]
pub fn key_with(key: u64, number: u64) -> u64
    ensures { result ≡ key_with key number }
{
    key.wrapping_mul(1_099_511_628_211).wrapping_add(number)
}

/// The key of a name behind another key.
#[tactic(auto, unfolding(crate::specs::Keys::octets_key))]
pub fn name_key(key: u64, name: &[u8]) -> u64
    ensures { result ≡ name_key key name.now }
{
    let mut key = key;
    for octet in name {
        key = key_with(key, u64::from(octet.to_ascii_lowercase()));
    }
    key
}

fn space_key(space: Space) -> u64
    ensures { result ≡ space_key space }
{
    match space {
        Space::Standard => 0,
        Space::Vendor(vendor) => u64::from(vendor) + 1,
        Space::Internal => 4_294_967_296,
    }
}

/// The key of an attribute.
#[tactic(auto, unfolding(crate::specs::Keys::attr_key))]
pub fn attr_key(id: AttrId) -> u64
    ensures { result ≡ attr_key id }
{
    key_with(space_key(id.space), u64::from(id.number))
}
