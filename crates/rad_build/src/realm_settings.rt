//! The settings of a module of the kind `realm`.

ghost use Rattle.std.specs.Prelude.{◌≡◌, codes};
ghost use Rattle.std.specs.Arc.{arc_value};
ghost use Rattle.rad_build.specs.Items.{set_by};
ghost use Rattle.rad_build.specs.Nodes.{Gives, formed, after_each};
ghost use Rattle.rad_build.specs.ModulesBlock.{is_realm, realm_module};
ghost use Rattle.rad_build.specs.RealmSettings.{format_named, delimiter_of, no_settings, with_pair, with_setting, parting_of};

use crate::fault::BuildFault;
use crate::item::{is_assignment, pair_of};
use crate::refusal::refuse_setting;
use mod_realm::{RealmFormat, RealmModule, Realms};
use rad_conf::Node;
use rad_modules::SiteModule;
use rad_outside::Place;
use std::alloc::Global;
use std::sync::Arc;

/// What is known of how a module parts names.
#[derive(Debug, Drop)]
pub struct Parting {
    format: Option<RealmFormat>,
    delimiter: Option<u8>,
}

/// A format by its word.
fn format_named(word: &[u8]) -> Option<RealmFormat>
    ensures { result ≡ format_named word.now }
{
    if word == b"suffix".as_slice() {
        Some(RealmFormat::Suffix)
    } else if word == b"prefix".as_slice() {
        Some(RealmFormat::Prefix)
    } else {
        None
    }
}

/// A delimiter, which is one octet.
fn delimiter_of(text: &[u8]) -> Option<u8>
    ensures { result ≡ delimiter_of text.now }
{
    match text {
        [octet] => Some(*octet),
        _ => None,
    }
}

/// The format that a setting is set to.
fn format_at(
    alloc: Global,
    place: &Place,
    operator: &[u8],
    value: &[u8],
) -> Result<RealmFormat, BuildFault>
    ensures { Gives result (formed place.now (codes "format") (set_by operator.now (format_named value.now))) }
{
    if is_assignment(operator) {
        if let Some(format) = format_named(value) {
            return Ok(format);
        }
    }
    refuse_setting(alloc, place, b"format")
}

/// The delimiter that a setting is set to.
fn delimiter_at(
    alloc: Global,
    place: &Place,
    operator: &[u8],
    value: &[u8],
) -> Result<u8, BuildFault>
    ensures { Gives result (formed place.now (codes "delimiter") (set_by operator.now (delimiter_of value.now))) }
{
    if is_assignment(operator) {
        if let Some(delimiter) = delimiter_of(value) {
            return Ok(delimiter);
        }
    }
    refuse_setting(alloc, place, b"delimiter")
}

/// What is known after one more pair.
#[tactic(auto, unfolding(crate::specs::RealmSettings::with_pair))]
fn with_pair(
    alloc: Global,
    known: Parting,
    place: &Place,
    name: &[u8],
    operator: &[u8],
    value: &[u8],
) -> Result<Parting, BuildFault>
    ensures { Gives result (with_pair known place.now name.now operator.now value.now) }
{
    let Parting { format, delimiter } = known;
    if name == b"format".as_slice() && format.is_none() {
        let format = Some(format_at(alloc, place, operator, value)?);
        return Ok(Parting { format, delimiter });
    }
    if name == b"delimiter".as_slice() && delimiter.is_none() {
        let delimiter = Some(delimiter_at(alloc, place, operator, value)?);
        return Ok(Parting { format, delimiter });
    }
    Ok(Parting { format, delimiter })
}

/// What is known after one more item.
fn with_setting(alloc: Global, known: Parting, node: &Node) -> Result<Parting, BuildFault>
    ensures { Gives result (with_setting known node.now) }
{
    match pair_of(node) {
        None => Ok(known),
        Some((name, operator, value)) => {
            with_pair(alloc, known, &node.place, name, operator, value)
        }
    }
}

/// What is known of a module by its items.
fn settings_of(alloc: Global, items: &[Node]) -> Result<Parting, BuildFault>
    ensures { Gives result (after_each with_setting no_settings items.now) }
{
    let mut known = Parting {
        format: None,
        delimiter: None,
    };
    for item in items {
        known = with_setting(alloc, known, item)?;
    }
    Ok(known)
}

/// The format and the delimiter of a module by its items.
#[tactic(auto, unfolding(crate::specs::RealmSettings::parting_of))]
fn parting_of(alloc: Global, items: &[Node]) -> Result<(RealmFormat, u8), BuildFault>
    ensures { Gives result (parting_of items.now) }
{
    let known = settings_of(alloc, items)?;
    let format = known.format.unwrap_or(RealmFormat::Suffix);
    let delimiter = known.delimiter.unwrap_or(b'@');
    Ok((format, delimiter))
}

/// Whether a block of this kind is of `realm`.
pub fn is_realm(kind: &[u8]) -> bool
    ensures { result ≡ is_realm kind.now }
{
    kind == b"realm".as_slice()
}

/// The module `realm` over these realms, by its settings.
#[tactic(auto, unfolding(crate::specs::ModulesBlock::realm_module))]
pub fn realm_module(
    alloc: Global,
    realms: &Arc<Realms>,
    items: &[Node],
) -> Result<SiteModule, BuildFault>
    ensures { Gives result (realm_module (arc_value realms.now) items.now) }
{
    let (format, delimiter) = parting_of(alloc, items)?;
    let realms = Arc::try_clone(realms)?;
    Ok(SiteModule::Realm(RealmModule::sharing(realms, format, delimiter)))
}
