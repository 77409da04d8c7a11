/// Why a datagram is dropped without a reply, in the order in which the causes are looked for (RFC 2865 section 3,
/// RFC 2866 section 3, RFC 3579 section 3.2).
#[derive(Clone, Copy, Debug, PartialEq, Eq)]
pub enum DropCause {
    /// The source is no client's.
    UnknownClient,
    /// Fewer than 20 octets.
    Short,
    /// The Length is below 20, above 4,096 or above the number of octets.
    BadLength,
    /// The code isn't the listener's.
    WrongCode,
    /// The attributes don't fill the octets up to Length exactly, or one has a length below 2.
    BadAttribute,
    /// The authenticator of an Accounting-Request isn't the digest under the client's secret.
    BadAuthenticator,
    /// An Access-Request has Message-Authenticator twice, or one whose value has other than 16 octets or isn't the
    /// HMAC-MD5 under the client's secret.
    BadMessageAuthenticator,
}
