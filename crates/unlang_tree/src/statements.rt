//! Statements that hold no others: calls of instances, words alone and updates.

ghost use Rattle.std.specs.Prelude.{◌≡◌, ◌-◌, ◌<◌, IfOk};
ghost use Rattle.std.specs.List.{list_all};
ghost use Rattle.unlang_tree.specs.Readings.{Gives};
ghost use Rattle.unlang_tree.specs.Sites.{site_of};
ghost use Rattle.unlang_tree.specs.Statements.{with_room, one_statement, counted_call, word_at, is_pair, with_actions, call_block_at, update_statement};

use crate::actions::overrides_of;
use crate::calls::call_at;
use crate::fault::TreeFault;
use crate::refusal::{Wrong, one_deeper, one_more, refuse};
use crate::site::SiteRef;
use crate::statement::{Call, Statement, StatementKind};
use crate::updates::update_at;
use crate::words::{is_later_word, is_return};
use rad_conf::{Item, Node, Word};
use rad_outside::{NoMemory, Place};
use rad_text::place_at;
use rad_words::Section;
use std::alloc::Global;

/// A statement that was read, and how many more the server has room for.
#[derive(Drop)]
pub struct Counted {
    pub statement: Statement,
    pub room: usize,
}

/// A statement that begins at a place, and leaves room for so many.
pub(crate) fn with_room(
    alloc: Global,
    left: usize,
    place: &Place,
    kind: StatementKind,
) -> Result<Counted, NoMemory>
    ensures { IfOk result (λ one. one ≡ with_room left place.now kind) }
{
    let place = place_at(alloc, place.file.as_slice(), place.line)?;
    Ok(Counted {
        statement: Statement { place, kind },
        room: left,
    })
}

/// A statement that is one more.
#[tactic(auto, unfolding(crate::specs::Statements::one_statement))]
fn one_statement(
    alloc: Global,
    room: usize,
    place: &Place,
    kind: StatementKind,
) -> Result<Option<Counted>, TreeFault>
    ensures { Gives result (one_statement room place.now kind) }
{
    one_more(alloc, room, place)?;
    Ok(Some(with_room(alloc, room.saturating_sub(1), place, kind)?))
}

/// The statement that is a call; none where the call counts as not written.
#[tactic(auto, unfolding(crate::specs::Statements::counted_call))]
fn counted_call(
    alloc: Global,
    room: usize,
    place: &Place,
    call: Option<Call>,
) -> Result<Option<Counted>, TreeFault>
    ensures { Gives result (counted_call room place.now call) }
{
    let Some(call) = call else {
        return Ok(None);
    };
    one_statement(alloc, room, place, StatementKind::Call(call))
}

/// A word alone that calls no policy: `return`, a statement that isn't built yet, or the call of an instance.
#[tactic(auto, unfolding(crate::specs::Statements::word_at))]
pub(crate) fn word_at(
    alloc: Global,
    site: &SiteRef<'_>,
    section: Section,
    room: usize,
    place: &Place,
    word: &[u8],
) -> Result<Option<Counted>, TreeFault>
    ensures { Gives result (word_at (site_of site.now) section room place.now word.now) }
{
    if is_return(word) {
        return one_statement(alloc, room, place, StatementKind::Return);
    }
    if is_later_word(word) {
        return refuse(alloc, place, Wrong::NotBuilt);
    }
    let call = call_at(alloc, site.instances, section, place, word)?;
    counted_call(alloc, room, place, call)
}

/// Whether an item is a pair.
pub(crate) fn is_pair(node: &Node) -> bool
    ensures { result ≡ is_pair node.now }
{
    match &node.item {
        Item::Pair(_, _, _) => true,
        Item::Name(_) => false,
        Item::Block(_, _, _) => false,
    }
}

/// Whether all items are pairs.
pub(crate) fn are_pairs(nodes: &[Node]) -> bool
    ensures { result ≡ list_all is_pair nodes.now }
{
    nodes.iter().all(is_pair)
}

/// A call with actions of its own; one that counts as not written is passed over.
#[tactic(auto, unfolding(crate::specs::Statements::with_actions))]
fn with_actions(
    alloc: Global,
    levels: u32,
    room: usize,
    place: &Place,
    pairs: &[Node],
    call: Option<Call>,
) -> Result<Option<Counted>, TreeFault>
    ensures { Gives result (with_actions levels room place.now pairs.now call) }
{
    let Some(call) = call else {
        return Ok(None);
    };
    one_deeper(alloc, levels, place)?;
    one_more(alloc, room, place)?;
    let overrides = overrides_of(alloc, pairs)?;
    let call = Call {
        instance: call.instance,
        overrides,
    };
    let left = room.saturating_sub(1);
    Ok(Some(with_room(alloc, left, place, StatementKind::Call(call))?))
}

/// A block of a kind that is no keyword, and that calls no policy.
#[tactic(auto, unfolding(crate::specs::Statements::call_block_at))]
pub(crate) fn call_block_at(
    alloc: Global,
    site: &SiteRef<'_>,
    section: Section,
    levels: u32,
    room: usize,
    place: &Place,
    kind: &[u8],
    name: &Option<Word>,
    body: &[Node],
) -> Result<Option<Counted>, TreeFault>
    ensures { Gives result (call_block_at (site_of site.now) section levels room place.now kind.now name.now body.now) }
{
    if name.is_some() || !are_pairs(body) {
        return refuse(alloc, place, Wrong::UnknownKeyword);
    }
    let call = call_at(alloc, site.instances, section, place, kind)?;
    with_actions(alloc, levels, room, place, body, call)
}

/// An update, as a statement.
#[tactic(auto, unfolding(crate::specs::Statements::update_statement))]
pub(crate) fn update_statement(
    alloc: Global,
    site: &SiteRef<'_>,
    levels: u32,
    room: usize,
    place: &Place,
    name: &Option<Word>,
    body: &[Node],
) -> Result<Option<Counted>, TreeFault>
    ensures { Gives result (update_statement (site_of site.now) levels room place.now name.now body.now) }
{
    let lines = update_at(alloc, site.dict, levels, room, place, name, body)?;
    let left = room.saturating_sub(1);
    Ok(Some(with_room(alloc, left, place, StatementKind::Update(lines))?))
}
