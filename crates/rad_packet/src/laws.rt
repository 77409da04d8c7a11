//! Laws of packets: facts about the definitions alone, for all lists of octets. The functions do nothing.

ghost use Rattle.std.specs.Prelude.{◌≡◌, ◌≢◌, ◌≤◌, [], ◌∷◌, List, Option, ℕ, length, map, take};
ghost use Rattle.rad_outside.specs.declared.listen.ListenKind.{ListenKind};
ghost use Rattle.rad_packet.specs.Authentic.{Holds, IsAuthentic, IsFirstCause};
ghost use Rattle.rad_packet.specs.Packet.{Attribute, AreAttributes, IsPacket, attributes_in, attributes_of};
ghost use Rattle.rad_packet.specs.Signatures.{IsIntact, message_authenticator, message_authenticators, zeroed};
ghost use Rattle.rad_packet.specs.declared.cause.DropCause.{DropCause};
ghost use Rattle.rad_packet.specs.declared.client.Client.{Client};

/// Octets are attributes in one way at most, and reading from the front finds it (RFC 2865 section 5).
pub fn attributes_have_one_reading()
    ensures unique { (attributes others : List Attribute) (octets : List ℕ) → AreAttributes attributes octets
        → AreAttributes others octets → attributes ≡ others }
    ensures read { (attributes : List Attribute) (turns : ℕ) (octets : List ℕ) → length octets ≤ turns
        → AreAttributes attributes octets → attributes_in turns octets ≡ attributes }
    ensures of_packet { (attributes : List Attribute) (octets : List ℕ) → IsPacket attributes octets
        → attributes_of octets ≡ attributes }
{}

/// What is authentic has no cause to be dropped, what has a first cause is not authentic, and there is one first cause
/// at most (RFC 2865 section 3, RFC 2866 section 3, RFC 3579 section 3.2).
pub fn authentic_has_no_cause()
    ensures taken { (cause : DropCause) (datagram : List ℕ) (client : Option Client) (kind : ListenKind)
        → IsAuthentic datagram client kind → ¬ Holds cause datagram client kind }
    ensures dropped { (cause : DropCause) (datagram : List ℕ) (client : Option Client) (kind : ListenKind)
        → IsFirstCause cause datagram client kind → ¬ IsAuthentic datagram client kind }
    ensures one_cause { (cause other : DropCause) (datagram : List ℕ) (client : Option Client) (kind : ListenKind)
        → IsFirstCause cause datagram client kind → IsFirstCause other datagram client kind → cause ≡ other }
{}

/// What Message-Authenticator has to be (RFC 3579 section 3.2): 16 octets, which depend on all of a packet but the
/// authenticator in the packet and the value in the attribute's place. So a packet isn't intact that has the attribute twice,
/// or with a value of another length, and one is that has it once with the right value.
pub fn message_authenticators_vouch()
    ensures length { (packet authenticator secret : List ℕ)
        → length (message_authenticator packet authenticator secret) ≡ 16 }
    ensures signed { (packet other : List ℕ) (attributes others : List Attribute) (authenticator secret : List ℕ)
        → IsPacket attributes packet → IsPacket others other → take 4 packet ≡ take 4 other
        → map zeroed attributes ≡ map zeroed others
        → message_authenticator packet authenticator secret ≡ message_authenticator other authenticator secret }
    ensures once { (packet authenticator secret : List ℕ) (first second : Attribute) (rest : List Attribute)
        → message_authenticators packet ≡ first ∷ second ∷ rest → ¬ IsIntact packet authenticator secret }
    ensures exact { (packet authenticator secret : List ℕ) (attribute : Attribute) (rest : List Attribute)
        → message_authenticators packet ≡ attribute ∷ rest → length attribute.value ≢ 16
        → ¬ IsIntact packet authenticator secret }
    ensures right { (packet authenticator secret : List ℕ) (attribute : Attribute)
        → message_authenticators packet ≡ attribute ∷ []
        → attribute.value ≡ message_authenticator packet authenticator secret → IsIntact packet authenticator secret }
{}
