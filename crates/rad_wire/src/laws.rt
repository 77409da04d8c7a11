//! Laws of requests and replies as pairs: facts about the definitions alone, for all lists of octets. The functions do nothing.

ghost use Rattle.std.specs.Prelude.{◌≡◌, ◌≢◌, ◌<◌, ◌≤◌, ◌++◌, [], All, IsTrue, List, ℕ, drop, length};
ghost use Rattle.rad_outside.specs.declared.listen.ListenKind.TheVariants as kinds;
ghost use Rattle.rad_dict.specs.Definitions.{Definitions};
ghost use Rattle.rad_value.specs.declared.values.Pair.{Pair};
ghost use Rattle.rad_packet.specs.Packet.{Attribute, AreAttributes, IsPacket, IsWellFormed, code_of, id_of};
ghost use Rattle.rad_packet.specs.Authentic.{IsSigned};
ghost use Rattle.rad_wire.specs.Accepts.{Accepts, FaultHolds, IsFirstFault, is_reply_code};
ghost use Rattle.rad_wire.specs.Carried.{FitBeside, IsAsked, IsCarried, proxy_state_pairs};
ghost use Rattle.rad_wire.specs.Pairs.{pairs_of, vendor_parts};
ghost use Rattle.rad_wire.specs.Reply.{reply_attributes, reply_octets};
ghost use Rattle.rad_wire.specs.Request.{request_octets};
ghost use Rattle.rad_wire.specs.declared.reply_fault.ReplyFault.{ReplyFault};

/// What a policy's pairs give is a packet: a header, the pairs' attributes up to the first that doesn't fit, and the
/// request's Proxy-State attributes (RFC 2865 sections 3 and 5.33).
pub fn replies_are_packets()
    ensures { (code : ℕ) (pairs : List Pair) (request secret : List ℕ) → IsWellFormed request
        → IsPacket (reply_attributes pairs request) (reply_octets code pairs request secret) }
{}

/// What a reply carries whole is decoded again: pairs that are carried and that fit beside the request's Proxy-State
/// attributes come back in order, and then those (RFC 2865 section 5).
pub fn replies_are_decoded()
    ensures { (code : ℕ) (pairs : List Pair) (request secret : List ℕ) (dict : Definitions) → IsWellFormed request
        → All (IsCarried dict) pairs → FitBeside pairs request
        → pairs_of (reply_octets code pairs request secret) secret dict ≡ pairs ++ proxy_state_pairs request dict }
{}

/// The value of a Vendor-Specific attribute has the parts that stand behind its Vendor-Id as attributes and nothing
/// else, and no others (RFC 2865 section 5.26). Octets are below 256.
pub fn vendor_parts_have_one_reading()
    ensures read { (parts : List Attribute) (octets : List ℕ) → AreAttributes parts (drop 4 octets)
        → vendor_parts octets ≡ parts }
    ensures only { (octets : List ℕ) → All (λ octet. octet < 256) octets → vendor_parts octets ≢ []
        → AreAttributes (vendor_parts octets) (drop 4 octets) }
{}

/// What is accepted as a reply has no fault, and what has a first fault is not accepted (RFC 2865 section 3, RFC 2866
/// section 3, RFC 3579 section 3.2).
pub fn accepted_replies_have_no_fault()
    ensures accepted { (fault : ReplyFault) (request reply secret : List ℕ) → Accepts request reply secret
        → ¬ FaultHolds fault request reply secret }
    ensures refused { (fault : ReplyFault) (request reply secret : List ℕ) → IsFirstFault fault request reply secret
        → ¬ Accepts request reply secret }
{}

/// A server's reply is accepted by whoever sent the request and shares its secret, where its code answers the request's
/// (RFC 2865 section 3).
pub fn replies_are_accepted()
    ensures { (code : ℕ) (pairs : List Pair) (request secret : List ℕ) → IsWellFormed request
        → IsTrue (is_reply_code (code_of request) code)
        → Accepts request (reply_octets code pairs request secret) secret }
{}

/// A request that is made is signed as a server that shares the secret asks for it: an Accounting-Request by its
/// authenticator, and an Access-Request by its Message-Authenticator, if it has one (RFC 2866 section 3, RFC 3579 section
/// 3.2). It has the Code and the Identifier that it was made with. The Request Authenticator has 16 octets.
pub fn requests_are_signed()
    ensures access { (id : ℕ) (authenticator : List ℕ) (pairs : List Pair) (secret : List ℕ) → length authenticator ≡ 16
        → length (request_octets 1 id authenticator pairs secret) ≤ 4096
        → IsSigned kinds.Auth (request_octets 1 id authenticator pairs secret) secret }
    ensures accounting { (id : ℕ) (authenticator : List ℕ) (pairs : List Pair) (secret : List ℕ) → length authenticator ≡ 16
        → IsSigned kinds.Acct (request_octets 4 id authenticator pairs secret) secret }
    ensures code { (code id : ℕ) (authenticator : List ℕ) (pairs : List Pair) (secret : List ℕ)
        → code_of (request_octets code id authenticator pairs secret) ≡ code }
    ensures id { (code id : ℕ) (authenticator : List ℕ) (pairs : List Pair) (secret : List ℕ)
        → id_of (request_octets code id authenticator pairs secret) ≡ id }
{}

/// What an Access-Request carries is decoded again: pairs that it carries whole come back in order, passwords revealed (RFC
/// 2865 sections 5 and 5.2). The Request Authenticator has 16 octets, and the packet at most 4,096.
pub fn requests_are_decoded()
    ensures { (id : ℕ) (authenticator : List ℕ) (pairs : List Pair) (secret : List ℕ) (dict : Definitions)
        → length authenticator ≡ 16 → length (request_octets 1 id authenticator pairs secret) ≤ 4096
        → All (IsAsked dict) pairs
        → pairs_of (request_octets 1 id authenticator pairs secret) secret dict ≡ pairs }
{}
