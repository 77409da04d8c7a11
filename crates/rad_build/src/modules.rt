//! The modules of a site.

ghost use Rattle.std.specs.Prelude.{◌≡◌, false, Ok, IfOk, IfErr};
ghost use Rattle.std.specs.Arc.{arc_value};
ghost use Rattle.std.specs.List.{find};
ghost use Rattle.std.specs.Option.{option_map, option_copied};
ghost use Rattle.rad_outside.specs.Telling.{Counts};
ghost use Rattle.unlang_xlat.specs.Faults.{parsed};
ghost use Rattle.rad_build.specs.Nodes.{Gives, Fails, after_each};
ghost use Rattle.rad_build.specs.RealmBlock.{realms_in};
ghost use Rattle.rad_build.specs.Sources.{FindsIn};
ghost use Rattle.rad_build.specs.Modules.{is_taken};
ghost use Rattle.rad_build.specs.ModulesBlock.{rcode_at, always_by, is_later, plain_module, usual_key, key_or_refused, key_by, entries_module, files_with, file_then_key, key_then_file, is_files_pair, has_key_first, files_module, file_of, module_of, is_realm, realm_module, instance_of, and_room, with_instance, module_block, with_module, with_modules, modules_over, modules_in};

use crate::fault::BuildFault;
use crate::instances::Modules;
use crate::item::{is_pair_of, nodes_of, pair_named, setting_of};
use crate::realm_settings::{is_realm, realm_module};
use crate::realms::realms_in;
use crate::refusal::{refuse, refuse_setting, unknown_module};
use crate::users::{EntryFile, users_by};
use mod_auth::{Chap, Pap};
use mod_base::Always;
use mod_filter::AttrFilter;
use mod_realm::Realms;
use mod_users::{FilesModule, Users};
use rad_conf::{Item, Node};
use rad_dict::Dict;
use rad_modules::SiteModule;
use rad_outside::{Files, Octets, Place};
use rad_words::Code;
use std::alloc::Global;
use std::sync::Arc;
use unlang_xlat::{Xlat, XlatFault};

/// The key where none is set: of `files` the user's name, without its realm where that was taken off, and of `attr_filter` the
/// realm.
fn usual_key(file: EntryFile) -> &'static [u8]
    ensures { result.now ≡ usual_key file }
{
    match file {
        EntryFile::Users => b"%{%{Stripped-User-Name}:-%{User-Name}}",
        EntryFile::Filter => b"%{Realm}",
    }
}

/// The return code of the setting `rcode = CODE`.
fn rcode_at(node: &Node) -> Option<Code>
    ensures { result ≡ rcode_at node.now }
{
    match setting_of(node) {
        Some((_, value)) => Code::named(value),
        None => None,
    }
}

/// The module of the first setting `rcode` of a block at this place.
#[tactic(auto, unfolding(crate::specs::ModulesBlock::always_by))]
fn always_by(alloc: Global, place: &Place, setting: Option<&Node>) -> Result<SiteModule, BuildFault>
    ensures { Gives result (always_by place.now (option_copied setting.entry)) }
{
    let Some(node) = setting else {
        return refuse_setting(alloc, place, b"rcode");
    };
    match rcode_at(node) {
        Some(code) => Ok(SiteModule::Always(Always { code })),
        None => refuse_setting(alloc, &node.place, b"rcode"),
    }
}

/// Whether a kind of modules isn't built yet.
fn is_later(kind: &[u8]) -> bool
    ensures { result ≡ is_later kind.now }
{
    kind == b"detail".as_slice() || kind == b"radutmp".as_slice()
}

/// The module of a kind that reads no file.
#[tactic(auto, unfolding(crate::specs::ModulesBlock::plain_module))]
fn plain_module(
    alloc: Global,
    place: &Place,
    kind: &[u8],
    name: &[u8],
    items: &[Node],
) -> Result<SiteModule, BuildFault>
    ensures { Gives result (plain_module place.now kind.now name.now items.now) }
{
    if kind == b"always".as_slice() {
        return always_by(alloc, place, pair_named(b"rcode", items));
    }
    if kind == b"pap".as_slice() {
        return Ok(SiteModule::Pap(Pap::new(Octets::of(alloc, name)?)));
    }
    if kind == b"chap".as_slice() {
        return Ok(SiteModule::Chap(Chap::new(Octets::of(alloc, name)?)));
    }
    if is_later(kind) {
        return refuse(alloc, place);
    }
    unknown_module(alloc, place, kind)
}

/// A key that a text writes; one that can't be read is refused at a place.
fn key_of(alloc: Global, dict: &Dict, place: &Place, text: &[u8]) -> Result<Xlat, BuildFault>
    ensures { Gives result (key_or_refused place.now (parsed text.now dict.now)) }
{
    match Xlat::parse(alloc, text, dict) {
        Ok(key) => Ok(key),
        Err(XlatFault::NoMemory) => Err(BuildFault::NoMemory),
        Err(_) => refuse_setting(alloc, place, b"key"),
    }
}

/// The key of the first setting `key` of a block at this place.
#[tactic(auto, unfolding(crate::specs::ModulesBlock::key_by))]
fn key_by(
    alloc: Global,
    file: EntryFile,
    dict: &Dict,
    place: &Place,
    setting: Option<&Node>,
) -> Result<Xlat, BuildFault>
    ensures { Gives result (key_by file dict.now place.now (option_copied setting.entry)) }
{
    let Some(node) = setting else {
        return key_of(alloc, dict, place, usual_key(file));
    };
    match setting_of(node) {
        None => refuse_setting(alloc, &node.place, b"key"),
        Some((_, text)) => key_of(alloc, dict, &node.place, text),
    }
}

/// The module of a file's entries and of a key.
fn entries_module(file: EntryFile, users: Users, key: Xlat) -> SiteModule
    ensures { result ≡ entries_module file users key }
{
    match file {
        EntryFile::Users => SiteModule::Files(FilesModule::new(users, key)),
        EntryFile::Filter => SiteModule::Filter(AttrFilter::new(users, key)),
    }
}

/// The module of these entries, and of the first setting `key`.
#[tactic(auto, unfolding(crate::specs::ModulesBlock::files_with))]
fn files_with(
    alloc: Global,
    file: EntryFile,
    dict: &Dict,
    place: &Place,
    setting: Option<&Node>,
    users: Users,
) -> Result<SiteModule, BuildFault>
    ensures { Gives result (files_with file dict.now place.now (option_copied setting.entry) users) }
{
    let key = key_by(alloc, file, dict, place, setting)?;
    Ok(entries_module(file, users, key))
}

/// The module where its file is looked at before its key.
fn file_then_key<F: Files>(
    alloc: Global,
    file: EntryFile,
    files: &mut F,
    dir: &str,
    dict: &Dict,
    place: &Place,
    items: &[Node],
) -> Result<SiteModule, BuildFault>
    ensures told { FindsIn dir.now (λ sources. file_then_key file sources dict.now place.now items.now) result
        (F.told files.old) (F.told files.new) }
    ensures faults { Counts (F.faults files.old) (F.faults files.new) (result ≡ Err BuildFault.ReadFault) }
{
    let users = users_by(alloc, file, files, dir, dict, place, items)?;
    files_with(alloc, file, dict, place, pair_named(b"key", items), users)
}

/// The module where its key is looked at before its file.
fn key_then_file<F: Files>(
    alloc: Global,
    file: EntryFile,
    files: &mut F,
    dir: &str,
    dict: &Dict,
    place: &Place,
    items: &[Node],
) -> Result<SiteModule, BuildFault>
    ensures told { FindsIn dir.now (λ sources. key_then_file file sources dict.now place.now items.now) result
        (F.told files.old) (F.told files.new) }
    ensures faults { Counts (F.faults files.old) (F.faults files.new) (result ≡ Err BuildFault.ReadFault) }
{
    let key = key_by(alloc, file, dict, place, pair_named(b"key", items))?;
    let users = users_by(alloc, file, files, dir, dict, place, items)?;
    Ok(entries_module(file, users, key))
}

/// Whether an item is a pair `key` or `filename`.
fn is_files_pair(node: &Node) -> bool
    ensures { result ≡ is_files_pair node.now }
{
    is_pair_of(b"key", node) || is_pair_of(b"filename", node)
}

/// The first pair `key` or `filename`.
fn first_files_pair(items: &[Node]) -> Option<&Node>
    ensures { option_copied result ≡ find is_files_pair items.now }
{
    items.iter().find(|node| is_files_pair(node))
}

/// Whether the first of these pairs is a `key`.
fn has_key_first(items: &[Node]) -> bool
    ensures { result ≡ has_key_first items.now }
{
    match first_files_pair(items) {
        Some(node) => is_pair_of(b"key", node),
        None => false,
    }
}

/// The module of a file of entries: its settings are looked at in the order in which they stand.
fn files_module<F: Files>(
    alloc: Global,
    file: EntryFile,
    files: &mut F,
    dir: &str,
    dict: &Dict,
    place: &Place,
    items: &[Node],
) -> Result<SiteModule, BuildFault>
    ensures told { FindsIn dir.now (λ sources. files_module file sources dict.now place.now items.now) result
        (F.told files.old) (F.told files.new) }
    ensures faults { Counts (F.faults files.old) (F.faults files.new) (result ≡ Err BuildFault.ReadFault) }
{
    if has_key_first(items) {
        return key_then_file(alloc, file, files, dir, dict, place, items);
    }
    file_then_key(alloc, file, files, dir, dict, place, items)
}

/// The file of entries that a block of this kind names.
fn file_of(kind: &[u8]) -> Option<EntryFile>
    ensures { result ≡ file_of kind.now }
{
    if kind == b"files".as_slice() {
        Some(EntryFile::Users)
    } else if kind == b"attr_filter".as_slice() {
        Some(EntryFile::Filter)
    } else {
        None
    }
}

/// The module of a block.
fn module_of<F: Files>(
    alloc: Global,
    files: &mut F,
    dir: &str,
    dict: &Dict,
    place: &Place,
    kind: &[u8],
    name: &[u8],
    items: &[Node],
) -> Result<SiteModule, BuildFault>
    ensures told { FindsIn dir.now (λ sources. module_of sources dict.now place.now kind.now name.now items.now) result
        (F.told files.old) (F.told files.new) }
    ensures faults { Counts (F.faults files.old) (F.faults files.new) (result ≡ Err BuildFault.ReadFault) }
{
    match file_of(kind) {
        Some(file) => files_module(alloc, file, files, dir, dict, place, items),
        None => plain_module(alloc, place, kind, name, items),
    }
}

/// The module of a block of a site with these realms.
#[tactic(auto, unfolding(crate::specs::ModulesBlock::instance_of))]
fn instance_of<F: Files>(
    alloc: Global,
    files: &mut F,
    dir: &str,
    dict: &Dict,
    realms: &Arc<Realms>,
    place: &Place,
    kind: &[u8],
    name: &[u8],
    items: &[Node],
) -> Result<SiteModule, BuildFault>
    ensures told { FindsIn dir.now (λ sources. instance_of sources dict.now (arc_value realms.now) place.now kind.now name.now items.now) result
        (F.told files.old) (F.told files.new) }
    ensures faults { Counts (F.faults files.old) (F.faults files.new) (result ≡ Err BuildFault.ReadFault) }
{
    if is_realm(kind) {
        return realm_module(alloc, realms, items);
    }
    module_of(alloc, files, dir, dict, place, kind, name, items)
}

/// The modules with one by this name, which isn't taken, where there is room for it.
#[tactic(auto, unfolding(crate::specs::ModulesBlock::and_room))]
fn and_room(
    alloc: Global,
    place: &Place,
    known: Modules,
    name: &[u8],
    module: SiteModule,
) -> Result<Modules, BuildFault>
    requires { is_taken known name.now ≡ false }
    ensures { Gives result (and_room place.now known name.now «module») }
{
    if !known.has_room(name) {
        return refuse_setting(alloc, place, name);
    }
    Ok(known.with(name, module)?)
}

/// The modules with that of a block, whose instance's name isn't taken.
fn with_instance<F: Files>(
    alloc: Global,
    files: &mut F,
    dir: &str,
    dict: &Dict,
    known: Modules,
    place: &Place,
    kind: &[u8],
    name: &[u8],
    items: &[Node],
) -> Result<Modules, BuildFault>
    ensures told { FindsIn dir.now (λ sources. with_instance sources dict.now known place.now kind.now name.now items.now) result
        (F.told files.old) (F.told files.new) }
    ensures faults { Counts (F.faults files.old) (F.faults files.new) (result ≡ Err BuildFault.ReadFault) }
{
    if known.is_taken(name) {
        return refuse_setting(alloc, place, name);
    }
    let module = instance_of(
        alloc,
        files,
        dir,
        dict,
        known.realms(),
        place,
        kind,
        name,
        items,
    )?;
    and_room(alloc, place, known, name, module)
}

/// The kind, the instance's name and the items of a block of a module.
fn module_block(node: &Node) -> Option<(&[u8], &[u8], &[Node])>
    ensures { option_map (λ block. (block.0.now, block.1.now, block.2.now)) result ≡ module_block node.now }
{
    match &node.item {
        Item::Pair(_, _, _) => None,
        Item::Name(_) => None,
        Item::Block(kind, name, body) => match name {
            None => Some((kind.text.as_slice(), kind.text.as_slice(), body.as_slice())),
            Some(name) => Some((kind.text.as_slice(), name.text.as_slice(), body.as_slice())),
        },
    }
}

/// The modules with one more.
fn with_module<F: Files>(
    alloc: Global,
    files: &mut F,
    dir: &str,
    dict: &Dict,
    known: Modules,
    node: &Node,
) -> Result<Modules, BuildFault>
    ensures told { FindsIn dir.now (λ sources. with_module sources dict.now known node.now) result
        (F.told files.old) (F.told files.new) }
    ensures faults { Counts (F.faults files.old) (F.faults files.new) (result ≡ Err BuildFault.ReadFault) }
{
    let Some((kind, name, items)) = module_block(node) else {
        return Ok(known);
    };
    with_instance(
        alloc,
        files,
        dir,
        dict,
        known,
        &node.place,
        kind,
        name,
        items,
    )
}

/// The modules with those of the items of a block.
fn with_items<F: Files>(
    alloc: Global,
    files: &mut F,
    dir: &str,
    dict: &Dict,
    known: Modules,
    items: &[Node],
) -> Result<Modules, BuildFault>
    ensures told { FindsIn dir.now (λ sources. after_each (with_module sources dict.now) known items.now) result
        (F.told files.old) (F.told files.new) }
    ensures faults { Counts (F.faults files.old) (F.faults files.new) (result ≡ Err BuildFault.ReadFault) }
{
    let mut known = known;
    for item in items {
        known = with_module(alloc, files, dir, dict, known, item)?;
    }
    Ok(known)
}

/// The modules with those of one more node of the top.
#[tactic(auto, unfolding(crate::specs::ModulesBlock::with_modules))]
fn with_modules<F: Files>(
    alloc: Global,
    files: &mut F,
    dir: &str,
    dict: &Dict,
    known: Modules,
    node: &Node,
) -> Result<Modules, BuildFault>
    ensures told { FindsIn dir.now (λ sources. with_modules sources dict.now known node.now) result
        (F.told files.old) (F.told files.new) }
    ensures faults { Counts (F.faults files.old) (F.faults files.new) (result ≡ Err BuildFault.ReadFault) }
{
    with_items(alloc, files, dir, dict, known, nodes_of(b"modules", node))
}

/// The modules, with those of all blocks `modules`.
fn configured_in<F: Files>(
    alloc: Global,
    files: &mut F,
    dir: &str,
    dict: &Dict,
    known: Modules,
    nodes: &[Node],
) -> Result<Modules, BuildFault>
    ensures told { FindsIn dir.now (λ sources. after_each (with_modules sources dict.now) known nodes.now) result
        (F.told files.old) (F.told files.new) }
    ensures faults { Counts (F.faults files.old) (F.faults files.new) (result ≡ Err BuildFault.ReadFault) }
{
    let mut known = known;
    for node in nodes {
        known = with_modules(alloc, files, dir, dict, known, node)?;
    }
    Ok(known)
}

/// The modules of a whole configuration with these realms: those of its blocks, and those of the return codes.
fn modules_over<F: Files>(
    alloc: Global,
    files: &mut F,
    dir: &str,
    dict: &Dict,
    realms: Arc<Realms>,
    nodes: &[Node],
) -> Result<Modules, BuildFault>
    ensures told { FindsIn dir.now (λ sources. modules_over sources dict.now (arc_value realms) nodes.now) result
        (F.told files.old) (F.told files.new) }
    ensures faults { Counts (F.faults files.old) (F.faults files.new) (result ≡ Err BuildFault.ReadFault) }
{
    let none = Modules::new(alloc, realms);
    let known = configured_in(alloc, files, dir, dict, none, nodes)?;
    let modules = known.with_codes()?;
    Ok(modules)
}

/// The realms of a configuration, which its modules share.
fn shared_realms(alloc: Global, nodes: &[Node]) -> Result<Arc<Realms>, BuildFault>
    ensures fault { IfErr result (λ e. Fails e (realms_in nodes.now)) }
    ensures realms { IfOk result (λ realms. realms_in nodes.now ≡ Ok (arc_value realms)) }
{
    let realms = realms_in(alloc, nodes)?;
    Ok(Arc::new(alloc, realms)?)
}

/// The modules of a whole configuration: its realms first, and then its modules over them.
pub fn modules_in<F: Files>(
    alloc: Global,
    files: &mut F,
    dir: &str,
    dict: &Dict,
    nodes: &[Node],
) -> Result<Modules, BuildFault>
    ensures told { FindsIn dir.now (λ sources. modules_in sources dict.now nodes.now) result
        (F.told files.old) (F.told files.new) }
    ensures faults { Counts (F.faults files.old) (F.faults files.new) (result ≡ Err BuildFault.ReadFault) }
{
    let realms = shared_realms(alloc, nodes)?;
    modules_over(alloc, files, dir, dict, realms, nodes)
}
