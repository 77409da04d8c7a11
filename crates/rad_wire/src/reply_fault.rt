/// Why a reply isn't accepted, in the order in which the causes are looked for (RFC 2865 section 3, RFC 2866 section 3,
/// RFC 3579 section 3.2).
#[derive(Clone, Copy, Debug, PartialEq, Eq)]
pub enum ReplyFault {
    /// Fewer than 20 octets.
    Short,
    /// The Length is below 20, above 4,096 or above the number of octets.
    BadLength,
    /// No request of its code is answered by the reply's.
    WrongCode,
    /// The Identifier isn't the request's.
    WrongId,
    /// The attributes don't fill the octets up to Length exactly, or one has a length below 2.
    BadAttribute,
    /// The authenticator isn't the digest over the request's authenticator.
    BadAuthenticator,
    /// A reply to an Access-Request has Message-Authenticator twice, or one whose value has other than 16 octets or isn't
    /// the HMAC-MD5 over the request's authenticator.
    BadMessageAuthenticator,
}
