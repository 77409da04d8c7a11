//! Calls of policies.

ghost use Rattle.std.specs.Prelude.{◌≡◌, IfOk};
ghost use Rattle.std.specs.Option.{option_copied};
ghost use Rattle.unlang_tree.specs.Readings.{Gives};
ghost use Rattle.unlang_tree.specs.PolicyCalls.{is_call_block, policy_called, is_braced, braces_at};

use crate::calls::{called_name, policy_for};
use crate::fault::TreeFault;
use crate::refusal::one_deeper;
use crate::statements::are_pairs;
use crate::words::{is_keyword, is_word_statement};
use rad_conf::{Item, Node, Word};
use rad_outside::NoMemory;
use rad_words::Section;
use std::alloc::Global;

/// Whether a block is a call.
fn is_call_block(kind: &[u8], name: &Option<Word>, body: &[Node]) -> bool
    ensures { result ≡ is_call_block kind.now name.now body.now }
{
    !(is_keyword(kind) || name.is_some()) && are_pairs(body)
}

/// The policy that a node calls in a section, if it calls one.
pub(crate) fn policy_called<'a>(
    alloc: Global,
    root: &'a [Node],
    section: Section,
    node: &Node,
) -> Result<Option<&'a Node>, NoMemory>
    ensures { IfOk result (λ policy. option_copied policy ≡ policy_called root.now section node.now) }
{
    match &node.item {
        Item::Pair(_, _, _) => Ok(None),
        Item::Name(word) => {
            let word = word.text.as_slice();
            if is_word_statement(word) {
                Ok(None)
            } else {
                policy_for(alloc, root, section, called_name(word))
            }
        }
        Item::Block(kind, name, body) => {
            let kind = kind.text.as_slice();
            if is_call_block(kind, name, body.as_slice()) {
                policy_for(alloc, root, section, called_name(kind))
            } else {
                Ok(None)
            }
        }
    }
}

/// Whether a call is a block, with actions of its own.
fn is_braced(node: &Node) -> bool
    ensures { result ≡ is_braced node.now }
{
    match &node.item {
        Item::Pair(_, _, _) => false,
        Item::Name(_) => false,
        Item::Block(_, _, _) => true,
    }
}

/// Refuses a call that is a block too deep.
#[tactic(auto, unfolding(crate::specs::PolicyCalls::braces_at))]
pub(crate) fn braces_at(alloc: Global, node: &Node, levels: u32) -> Result<(), TreeFault>
    ensures { Gives result (braces_at node.now levels) }
{
    if is_braced(node) {
        one_deeper(alloc, levels, &node.place)
    } else {
        Ok(())
    }
}
