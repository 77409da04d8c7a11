//! Trees of configurations as text: each node as `LINE:ITEM;`, where a pair is `LEFT OPERATOR RIGHT`, a block `KIND{..}`
//! or `KIND NAME{..}` with its body's nodes, and a word stands in its quotes. Below eight blocks a body is `..`, and an empty tree is `nothing`.

use rad_conf::{Conf, Item, NodeList, Quote, Word};
use rad_outside::NoMemory;
use shared_cases::push_number;
use std::alloc::Global;

/// How many blocks within one another are shown with their bodies.
const SHOWN: u32 = 8;

/// The text of a whole tree.
pub fn tree_text(alloc: Global, conf: &Conf) -> Result<Vec<u8>, NoMemory> {
    let mut text = Vec::new(alloc);
    push_nodes(alloc, &mut text, conf.root(), SHOWN)?;
    if text.is_empty() {
        text.extend_from_slice(b"nothing")?;
    }
    Ok(text)
}

/// Writes each node, and so many blocks within one another.
fn push_nodes(
    alloc: Global,
    to: &mut Vec<u8>,
    nodes: &NodeList,
    depth: u32,
) -> Result<(), NoMemory> {
    for node in nodes.as_slice() {
        push_number(alloc, to, u64::from(node.place.line))?;
        to.push(b':')?;
        match &node.item {
            Item::Pair(left, operator, right) => {
                push_pair(to, left, operator.as_slice(), right)?;
            }
            Item::Name(word) => push_word(to, word)?,
            Item::Block(kind, name, body) => {
                push_head(to, kind, name)?;
                if depth == 0 {
                    to.extend_from_slice(b"..")?;
                } else {
                    push_nodes(alloc, to, body, depth - 1)?;
                }
                to.push(b'}')?;
            }
        }
        to.push(b';')?;
    }
    Ok(())
}

/// Writes a word, in the quotes that it was written in.
fn push_word(to: &mut Vec<u8>, word: &Word) -> Result<(), NoMemory> {
    let quote: &[u8] = match word.quote {
        Quote::Bare => b"",
        Quote::Single => b"'",
        Quote::Double => b"\"",
    };
    to.extend_from_slice(quote)?;
    to.extend_from_slice(word.text.as_slice())?;
    to.extend_from_slice(quote)?;
    Ok(())
}

/// Writes a pair.
fn push_pair(to: &mut Vec<u8>, left: &Word, operator: &[u8], right: &Word) -> Result<(), NoMemory> {
    push_word(to, left)?;
    to.push(b' ')?;
    to.extend_from_slice(operator)?;
    to.push(b' ')?;
    push_word(to, right)
}

/// Writes a block's kind and name, and its opening brace.
fn push_head(to: &mut Vec<u8>, kind: &Word, name: &Option<Word>) -> Result<(), NoMemory> {
    push_word(to, kind)?;
    if let Some(name) = name {
        to.push(b' ')?;
        push_word(to, name)?;
    }
    to.push(b'{')?;
    Ok(())
}
