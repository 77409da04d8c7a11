//! The attributes that the server's own rules speak of.

use rad_words::{AttrId, Space};

pub const REPLY_MESSAGE: AttrId = AttrId {
    space: Space::Standard,
    number: 18,
};

pub const AUTH_TYPE: AttrId = AttrId {
    space: Space::Internal,
    number: 1,
};

pub const RESPONSE_PACKET_TYPE: AttrId = AttrId {
    space: Space::Internal,
    number: 3,
};
