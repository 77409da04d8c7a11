ghost use Rattle.std.specs.Prelude.{◌≡◌, ◌≢◌, ◌≤◌, length, drop, OnOk, IfOk, IfErr};
ghost use Rattle.std.specs.Bool.{OnFalse, OnTrue};
ghost use Rattle.std.specs.Option.{option_copied};
ghost use Rattle.rad_packet.specs.Packet.{authenticator_of, packet_of, code_of, id_of};
ghost use Rattle.rad_packet.specs.Authentic.{IsAuthentic, IsCodeFor, IsFirstCause};
ghost use Rattle.rad_packet.specs.Signatures.{accounting_authenticator};
ghost use Rattle.rad_packet.specs.Octets.{IsChecked};

use crate::attributes::are_attributes;
use crate::cause::DropCause;
use crate::client::Client;
use crate::signatures::{accounting_authenticator, is_intact};
use rad_outside::ListenKind;

/// The most octets of a packet (RFC 2865 section 3).
pub const LONGEST_PACKET: usize = 4096;

/// A packet that was checked: its code, its identifier, and the datagram's octets up to its Length.
#[derive(Clone, Copy, Debug)]
pub struct Checked<'a> {
    pub code: u8,
    pub id: u8,
    pub octets: &'a [u8],
}

impl Checked<'_> {
    /// The Authenticator, 16 octets.
    pub fn authenticator(&self) -> &[u8]
        requires { IsChecked self.now }
        ensures value { result.now ≡ authenticator_of self.now.octets.now }
        ensures length { length result.now ≡ 16 }
    {
        let (_, after) = self.octets.split_at(4);
        let (authenticator, _) = after.split_at(16);
        authenticator
    }

    /// The octets of the attributes.
    pub fn attributes(&self) -> &[u8]
        requires { IsChecked self.now }
        ensures { result.now ≡ drop 20 self.now.octets.now }
    {
        let (_, attributes) = self.octets.split_at(20);
        attributes
    }
}

/// The packet of a datagram from this client on a listener of this kind, or the first cause to drop it. Before the
/// signatures are looked at it is one pass over the octets, and it takes no memory.
pub fn check<'a>(
    bytes: &'a [u8],
    client: Option<&Client>,
    kind: ListenKind,
) -> Result<Checked<'a>, DropCause>
    ensures dropped { IfErr result (λ cause. IsFirstCause cause bytes.now (option_copied client.entry) kind) }
    ensures authentic { OnOk result (IsAuthentic bytes.now (option_copied client.entry) kind) }
    ensures packet { IfOk result (λ packet. (packet.octets.now ≡ packet_of bytes.now)
        × (packet.code ≡ code_of bytes.now) × (packet.id ≡ id_of bytes.now)) }
    ensures checked { IfOk result IsChecked }
{
    let Some(client) = client else {
        return Err(DropCause::UnknownClient);
    };
    let packet = packet_for(bytes, kind)?;
    let secret = client.secret.as_slice();
    match kind {
        ListenKind::Auth if is_intact(packet.octets, packet.authenticator(), secret) => Ok(packet),
        ListenKind::Auth => Err(DropCause::BadMessageAuthenticator),
        ListenKind::Acct if is_accounting_signed(packet.octets, secret) => Ok(packet),
        ListenKind::Acct => Err(DropCause::BadAuthenticator),
        ListenKind::Control => Err(DropCause::WrongCode),
    }
}

/// The packet at the front of a datagram, well formed and of the code of a listener of this kind, whatever the client and
/// its secret; or the first cause to drop it.
fn packet_for(bytes: &[u8], kind: ListenKind) -> Result<Checked, DropCause>
    ensures dropped { IfErr result (λ cause. (known : Client) → IsFirstCause cause bytes.now (Some known) kind) }
    ensures code { OnOk result (IsCodeFor kind (code_of bytes.now)) }
    ensures packet { IfOk result (λ packet. (packet.octets.now ≡ packet_of bytes.now)
        × (packet.code ≡ code_of bytes.now) × (packet.id ≡ id_of bytes.now)) }
    ensures checked { IfOk result IsChecked }
{
    if bytes.len() < 20 {
        return Err(DropCause::Short);
    }
    let length = usize::from(u16::from_be_bytes([bytes[2], bytes[3]]));
    if length < 20 || length > LONGEST_PACKET || length > bytes.len() {
        return Err(DropCause::BadLength);
    }
    if !is_code_for(kind, bytes[0]) {
        return Err(DropCause::WrongCode);
    }
    let (octets, _) = bytes.split_at(length);
    let (_, rest) = octets.split_at(20);
    if !are_attributes(rest) {
        return Err(DropCause::BadAttribute);
    }
    Ok(Checked {
        code: octets[0],
        id: octets[1],
        octets,
    })
}

/// Whether a listener of this kind takes requests of this code.
fn is_code_for(kind: ListenKind, code: u8) -> bool
    ensures yes { OnTrue result (IsCodeFor kind code) }
    ensures no { OnFalse result (¬ IsCodeFor kind code) }
{
    match kind {
        ListenKind::Auth => code == 1,
        ListenKind::Acct => code == 4,
        ListenKind::Control => false,
    }
}

/// Whether the authenticator of an Accounting-Request is the digest under this secret (RFC 2866 section 3).
fn is_accounting_signed(packet: &[u8], secret: &[u8]) -> bool
    requires { 20 ≤ length packet.now }
    ensures yes { OnTrue result (authenticator_of packet.now ≡ accounting_authenticator packet.now secret.now) }
    ensures no { OnFalse result (authenticator_of packet.now ≢ accounting_authenticator packet.now secret.now) }
{
    let (_, after) = packet.split_at(4);
    let (authenticator, _) = after.split_at(16);
    authenticator == accounting_authenticator(packet, secret).as_slice()
}
