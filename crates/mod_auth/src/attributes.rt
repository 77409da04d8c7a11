//! The attributes that the modules speak of.

use rad_words::{AttrId, Space};

pub(crate) const USER_PASSWORD: AttrId = AttrId {
    space: Space::Standard,
    number: 2,
};

pub(crate) const CHAP_PASSWORD: AttrId = AttrId {
    space: Space::Standard,
    number: 3,
};

pub(crate) const CHAP_CHALLENGE: AttrId = AttrId {
    space: Space::Standard,
    number: 60,
};

pub(crate) const AUTH_TYPE: AttrId = AttrId {
    space: Space::Internal,
    number: 1,
};

pub(crate) const CLEARTEXT_PASSWORD: AttrId = AttrId {
    space: Space::Internal,
    number: 4,
};

pub(crate) const MD5_PASSWORD: AttrId = AttrId {
    space: Space::Internal,
    number: 5,
};

pub(crate) const SHA_PASSWORD: AttrId = AttrId {
    space: Space::Internal,
    number: 6,
};

pub(crate) const SSHA_PASSWORD: AttrId = AttrId {
    space: Space::Internal,
    number: 7,
};
