//! The attributes that the module speaks of.

use rad_words::{AttrId, Space};

pub(crate) const USER_NAME: AttrId = AttrId {
    space: Space::Standard,
    number: 1,
};

pub(crate) const REALM: AttrId = AttrId {
    space: Space::Internal,
    number: 10,
};

pub(crate) const STRIPPED_USER_NAME: AttrId = AttrId {
    space: Space::Internal,
    number: 11,
};
