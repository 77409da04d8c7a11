//! The attributes of a request, written one pair after another: RFC 2865 sections 5, 5.2, 5.3 and 5.26.

ghost use Rattle.std.specs.Prelude.{◌≡◌, ◌++◌, ◌∷◌, [], true, false, take, IfErr, IfOk, OnOk};
ghost use Rattle.std.specs.Int.{w32, to_be_bytes};
ghost use Rattle.std.specs.List.{flat_map};
ghost use Rattle.rad_packet.specs.Hiding.{hidden};
ghost use Rattle.rad_packet.specs.Packet.{spelled};
ghost use Rattle.rad_wire.specs.Draft.{IsWritten, frame_in};
ghost use Rattle.rad_wire.specs.Request.{
  PasswordRefused,
  asked_attributes,
  asked_for,
  asked_value,
  chap_password,
  is_signature,
  long_password,
  long_password_of,
  long_passwords,
  request_attributes,
};

use crate::attribute_writing::{
    LONGEST_PART, LONGEST_VALUE, cut, push_attribute, push_vendor_attribute, value_octets,
};
use crate::request_fault::RequestFault;
use md5::{Digest, Md5};
use rad_outside::{NoMemory, Octets};
use rad_packet::{HideFault, hide};
use rad_value::{ListName, Lists, Pair};
use rad_words::{AttrId, Space};
use std::alloc::Global;

/// The code of an Access-Request (RFC 2865 section 4.1).
const ACCESS_REQUEST: u8 = 1;

/// The types of User-Password, CHAP-Password and Message-Authenticator.
const USER_PASSWORD: u8 = 2;

const CHAP_PASSWORD: u8 = 3;

const MESSAGE_AUTHENTICATOR: u8 = 80;

/// The octets of a CHAP-Password: its Identifier and a digest (RFC 2865 section 5.3).
const CHAP_LENGTH: usize = 17;

/// What the attributes of a request depend on beside the pairs.
#[derive(Clone, Copy)]
pub(crate) struct Asking<'a> {
    pub code: u8,
    pub id: u8,
    pub authenticator: &'a [u8; 16],
    pub secret: &'a [u8],
    pub challenge: &'a [u8],
}

/// The attributes written so far, and whether a Message-Authenticator is among them.
#[derive(Drop)]
pub(crate) struct Draft {
    pub octets: Vec<u8>,
    pub signed: bool,
}

/// The octets of the attributes of a request for the pairs of the request list, with this value of Message-Authenticator.
pub(crate) fn asked(
    alloc: Global,
    asking: &Asking,
    lists: &Lists,
    value: &[u8; 16],
) -> Result<Vec<u8>, RequestFault>
    ensures octets { IfOk result (λ octets. octets.items
        ≡ flat_map spelled (request_attributes (frame_in asking.now) lists.now.request value.now)) }
    ensures short { OnOk result (long_passwords asking.now.code lists.now.request ≡ []) }
    ensures refused { IfErr result (PasswordRefused (long_passwords asking.now.code lists.now.request)) }
{
    let mut draft = Draft {
        octets: Vec::new(alloc),
        signed: false,
    };
    for n in 0..lists.len(ListName::Request) {
        let Some(pair) = lists.get(ListName::Request, n) else {
            break;
        };
        push_pair(alloc, &mut draft, asking, value, pair)?;
    }
    let Draft { octets, signed: _ } = draft;
    Ok(octets)
}

/// Writes the attribute of a pair, if a request carries it.
#[tactic(auto, unfolding(crate::specs::Request::asked_for, crate::specs::Request::long_password_of))]
fn push_pair(
    alloc: Global,
    draft: &mut Draft,
    asking: &Asking,
    value: &[u8; 16],
    pair: &Pair,
) -> Result<(), RequestFault>
    ensures written { OnOk result (IsWritten asking.now.code value.now draft.old draft.new
        (asked_for (frame_in asking.now) pair.now)) }
    ensures short { OnOk result (long_password_of asking.now.code pair.now ≡ []) }
    ensures refused { IfErr result (PasswordRefused (long_password_of asking.now.code pair.now)) }
{
    let octets = value_octets(alloc, &pair.value)?;
    push_octets(alloc, draft, asking, value, pair.attr, octets.as_slice())
}

/// Writes an attribute with these octets as its value, if a request carries it.
#[tactic(auto, using(crate::proofs::Drafts::written_none, crate::proofs::Drafts::written_vendor))]
fn push_octets(
    alloc: Global,
    draft: &mut Draft,
    asking: &Asking,
    value: &[u8; 16],
    attr: AttrId,
    octets: &[u8],
) -> Result<(), RequestFault>
    ensures written { OnOk result (IsWritten asking.now.code value.now draft.old draft.new
        (asked_attributes (frame_in asking.now) attr.space attr.number octets.now)) }
    ensures short { OnOk result (long_password asking.now.code attr.space attr.number octets.now ≡ []) }
    ensures refused { IfErr result (PasswordRefused (long_password asking.now.code attr.space attr.number octets.now)) }
{
    let Ok(number) = u8::try_from(attr.number) else {
        return Ok(());
    };
    match attr.space {
        Space::Standard => push_standard(alloc, draft, asking, value, number, octets),
        Space::Vendor(vendor) => push_of_vendor(draft, vendor, number, octets),
        Space::Internal => Ok(()),
    }
}

/// Writes a vendor's attribute.
fn push_of_vendor(
    draft: &mut Draft,
    vendor: u32,
    number: u8,
    octets: &[u8],
) -> Result<(), RequestFault>
    ensures octets { OnOk result (draft.new.octets.items ≡ draft.old.octets.items ++ spelled
        (record { kind = 26; value = to_be_bytes w32 vendor ++ spelled (record { kind = number; value = take 247 octets.now }) })) }
    ensures signed { OnOk result (draft.new.signed ≡ draft.old.signed) }
    ensures refused { IfErr result (PasswordRefused []) }
{
    push_vendor_attribute(&mut draft.octets, vendor, number, cut(octets, LONGEST_PART))?;
    Ok(())
}

/// Whether an attribute of this type signs the request: Message-Authenticator in an Access-Request.
fn is_signature(asking: &Asking, number: u8) -> bool
    ensures { result ≡ is_signature asking.now.code (record { kind = number; value = [] }) }
{
    asking.code == ACCESS_REQUEST && number == MESSAGE_AUTHENTICATOR
}

/// Writes a standard attribute.
#[tactic(auto, using(crate::proofs::Drafts::written_plain, crate::proofs::Drafts::written_signature))]
fn push_standard(
    alloc: Global,
    draft: &mut Draft,
    asking: &Asking,
    value: &[u8; 16],
    number: u8,
    octets: &[u8],
) -> Result<(), RequestFault>
    ensures written { OnOk result (IsWritten asking.now.code value.now draft.old draft.new
        (record { kind = number; value = take 253 (asked_value (frame_in asking.now) number octets.now) } ∷ [])) }
    ensures short { OnOk result (long_password asking.now.code Space.Standard number octets.now ≡ []) }
    ensures refused { IfErr result (PasswordRefused (long_password asking.now.code Space.Standard number octets.now)) }
{
    if is_signature(asking, number) {
        return push_signature(draft, value);
    }
    let sent = asked_value(alloc, asking, number, octets)?;
    push_value(draft, number, sent.as_slice())
}

/// Writes the first Message-Authenticator of an Access-Request, and no later one.
fn push_signature(draft: &mut Draft, value: &[u8; 16]) -> Result<(), RequestFault>
    ensures first { OnOk result (draft.old.signed ≡ false → draft.new.octets.items
        ≡ draft.old.octets.items ++ spelled (record { kind = 80; value = value.now })) }
    ensures later { OnOk result (draft.old.signed ≡ true → draft.new.octets.items ≡ draft.old.octets.items) }
    ensures signed { OnOk result (draft.new.signed ≡ true) }
    ensures refused { IfErr result (PasswordRefused []) }
{
    if draft.signed {
        return Ok(());
    }
    push_attribute(&mut draft.octets, MESSAGE_AUTHENTICATOR, value)?;
    draft.signed = true;
    Ok(())
}

/// Writes an attribute with these octets as its value, which are cut.
fn push_value(draft: &mut Draft, number: u8, octets: &[u8]) -> Result<(), RequestFault>
    ensures octets { OnOk result (draft.new.octets.items
        ≡ draft.old.octets.items ++ spelled (record { kind = number; value = take 253 octets.now })) }
    ensures signed { OnOk result (draft.new.signed ≡ draft.old.signed) }
    ensures refused { IfErr result (PasswordRefused []) }
{
    push_attribute(&mut draft.octets, number, cut(octets, LONGEST_VALUE))?;
    Ok(())
}

/// The octets of a standard attribute's value in a request: a User-Password of an Access-Request is hidden, and a
/// CHAP-Password that is a password is digested.
fn asked_value(
    alloc: Global,
    asking: &Asking,
    number: u8,
    octets: &[u8],
) -> Result<Octets, RequestFault>
    ensures value { IfOk result (λ sent. sent ≡ asked_value (frame_in asking.now) number octets.now) }
    ensures short { OnOk result (long_password asking.now.code Space.Standard number octets.now ≡ []) }
    ensures refused { IfErr result (PasswordRefused (long_password asking.now.code Space.Standard number octets.now)) }
{
    if asking.code != ACCESS_REQUEST {
        return Ok(Octets::of(alloc, octets)?);
    }
    match number {
        USER_PASSWORD => hidden_password(alloc, asking, octets),
        CHAP_PASSWORD if octets.len() != CHAP_LENGTH => Ok(chap_password(alloc, asking, octets)?),
        _ => Ok(Octets::of(alloc, octets)?),
    }
}

/// A User-Password as it is sent.
fn hidden_password(alloc: Global, asking: &Asking, password: &[u8]) -> Result<Octets, RequestFault>
    ensures hidden { IfOk result (λ sent. sent ≡ hidden password.now asking.now.secret.now asking.now.authenticator.now) }
    ensures short { OnOk result (long_password 1 Space.Standard 2 password.now ≡ []) }
    ensures refused { IfErr result (PasswordRefused (long_password 1 Space.Standard 2 password.now)) }
{
    match hide(alloc, password, asking.secret, asking.authenticator) {
        Ok(hidden) => Ok(hidden),
        Err(HideFault::TooLong(count)) => Err(RequestFault::PasswordTooLong(count)),
        Err(HideFault::NoMemory) => Err(RequestFault::NoMemory),
    }
}

/// The CHAP-Password of a password.
fn chap_password(alloc: Global, asking: &Asking, password: &[u8]) -> Result<Octets, NoMemory>
    ensures { IfOk result (λ sent. sent ≡ chap_password asking.now.id password.now asking.now.challenge.now) }
{
    let mut hasher = Md5::new();
    hasher.update(&[asking.id]);
    hasher.update(password);
    hasher.update(asking.challenge);
    let mut octets = Vec::from_slice(alloc, &[asking.id])?;
    octets.extend_from_slice(&hasher.finalize())?;
    Ok(Octets::from_vec(octets))
}
