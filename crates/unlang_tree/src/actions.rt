//! Actions that aren't the default ones: `code = action`.

ghost use Rattle.std.specs.Prelude.{◌≡◌};
ghost use Rattle.unlang_tree.specs.Readings.{Gives, Leaves};
ghost use Rattle.unlang_tree.specs.Actions.{code_named, action_of, bare_action, override_of, override_at, with_override, overrides_of};

use crate::fault::TreeFault;
use crate::refusal::{Wrong, refuse};
use crate::statement::{Override, Overrides};
use rad_conf::{Item, Node, Quote, Word};
use rad_outside::Place;
use rad_tables::Action;
use rad_text::number_of;
use rad_words::Code;
use std::alloc::Global;

/// The return code of a name.
#[tactic(auto, unfolding(crate::specs::Actions::code_named))]
fn code_named(word: &[u8]) -> Option<Code>
    ensures { result ≡ code_named word.now }
{
    if word.eq_ignore_ascii_case(b"reject") {
        Some(Code::Reject)
    } else if word.eq_ignore_ascii_case(b"fail") {
        Some(Code::Fail)
    } else if word.eq_ignore_ascii_case(b"ok") {
        Some(Code::Ok)
    } else if word.eq_ignore_ascii_case(b"handled") {
        Some(Code::Handled)
    } else if word.eq_ignore_ascii_case(b"invalid") {
        Some(Code::Invalid)
    } else if word.eq_ignore_ascii_case(b"userlock") {
        Some(Code::Userlock)
    } else if word.eq_ignore_ascii_case(b"notfound") {
        Some(Code::Notfound)
    } else if word.eq_ignore_ascii_case(b"noop") {
        Some(Code::Noop)
    } else if word.eq_ignore_ascii_case(b"updated") {
        Some(Code::Updated)
    } else {
        None
    }
}

/// The action of a text: `return`, `reject` or a priority from 1 to 64.
#[tactic(auto, unfolding(crate::specs::Actions::action_of))]
fn action_of(text: &[u8]) -> Option<Action>
    ensures { result ≡ action_of text.now }
{
    if text.eq_ignore_ascii_case(b"return") {
        return Some(Action::Return);
    }
    if text.eq_ignore_ascii_case(b"reject") {
        return Some(Action::Reject);
    }
    let priority = number_of(10, text)?;
    if 0 < priority && priority <= 64 {
        Some(Action::Priority(priority))
    } else {
        None
    }
}

/// The action of a word, which stands without quotes.
fn bare_action(word: &Word) -> Option<Action>
    ensures { result ≡ bare_action word.now.quote word.now.text }
{
    match word.quote {
        Quote::Bare => action_of(word.text.as_slice()),
        Quote::Single => None,
        Quote::Double => None,
    }
}

/// What a pair `code = action` says; none where it isn't one.
#[tactic(auto, unfolding(crate::specs::Actions::override_of))]
fn override_of(left: &[u8], operator: &[u8], right: &Word) -> Option<Override>
    ensures { result ≡ override_of left.now operator.now right.now }
{
    if operator != b"=".as_slice() {
        return None;
    }
    let code = code_named(left)?;
    let action = bare_action(right)?;
    Some(Override { code, action })
}

/// The action of a pair.
#[tactic(auto, unfolding(crate::specs::Actions::override_at))]
pub(crate) fn override_at(
    alloc: Global,
    place: &Place,
    left: &[u8],
    operator: &[u8],
    right: &Word,
) -> Result<Override, TreeFault>
    ensures { Gives result (override_at place.now left.now operator.now right.now) }
{
    match override_of(left, operator, right) {
        None => refuse(alloc, place, Wrong::BadAction),
        Some(one) => Ok(one),
    }
}

/// The actions with that of one more node. After a fault they are given up.
#[tactic(auto, unfolding(crate::specs::Actions::with_override))]
pub(crate) fn with_override(
    alloc: Global,
    overrides: &mut Overrides,
    node: &Node,
) -> Result<(), TreeFault>
    ensures { Leaves result (with_override overrides.old node.now) overrides.new }
{
    match &node.item {
        Item::Pair(left, operator, right) => {
            let one = override_at(
                alloc,
                &node.place,
                left.text.as_slice(),
                operator.as_slice(),
                right,
            )?;
            overrides.push(one)?;
            Ok(())
        }
        Item::Name(_) => refuse(alloc, &node.place, Wrong::BadAction),
        Item::Block(_, _, _) => refuse(alloc, &node.place, Wrong::BadAction),
    }
}

/// The actions of nodes, in order.
pub(crate) fn overrides_of(alloc: Global, nodes: &[Node]) -> Result<Overrides, TreeFault>
    ensures { Gives result (overrides_of nodes.now) }
{
    let mut overrides = Overrides::new(alloc);
    for node in nodes {
        with_override(alloc, &mut overrides, node)?;
    }
    Ok(overrides)
}
