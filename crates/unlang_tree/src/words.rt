//! The words of policies.

ghost use Rattle.std.specs.Prelude.{◌≡◌, codes};
ghost use Rattle.std.specs.List.{list_any};
ghost use Rattle.std.specs.Str.{str_eq_ignore_ascii_case};
ghost use Rattle.unlang_tree.specs.Words.{word_of, section_of, is_one_of, is_return, later_words, is_word_statement, form_named, arm_named, later_blocks, is_keyword};

use crate::statement::GroupForm;
use rad_words::Section;

/// The name of a section.
pub(crate) fn word_of(section: Section) -> &'static [u8]
    ensures { result.now ≡ word_of section }
{
    match section {
        Section::Authorize => b"authorize",
        Section::Authenticate => b"authenticate",
        Section::Session => b"session",
        Section::Preacct => b"preacct",
        Section::Accounting => b"accounting",
        Section::PostAuth => b"post-auth",
    }
}

fn is_named(word: &[u8], section: Section) -> bool
    ensures { result ≡ str_eq_ignore_ascii_case word.now (word_of section) }
{
    word.eq_ignore_ascii_case(word_of(section))
}

/// The section of a name.
#[tactic(auto, unfolding(crate::specs::Words::section_of))]
pub(crate) fn section_of(word: &[u8]) -> Option<Section>
    ensures { result ≡ section_of word.now }
{
    if is_named(word, Section::Authorize) {
        Some(Section::Authorize)
    } else if is_named(word, Section::Authenticate) {
        Some(Section::Authenticate)
    } else if is_named(word, Section::Session) {
        Some(Section::Session)
    } else if is_named(word, Section::Preacct) {
        Some(Section::Preacct)
    } else if is_named(word, Section::Accounting) {
        Some(Section::Accounting)
    } else if is_named(word, Section::PostAuth) {
        Some(Section::PostAuth)
    } else {
        None
    }
}

/// Whether a word is one of these.
fn is_one_of(words: &[&[u8]], word: &[u8]) -> bool
    ensures { result ≡ list_any (λ one. str_eq_ignore_ascii_case word.now one.now) words.now }
{
    words.iter().any(|one| word.eq_ignore_ascii_case(one))
}

/// Whether a word alone is the statement `return`.
pub(crate) fn is_return(word: &[u8]) -> bool
    ensures { result ≡ is_return word.now }
{
    word.eq_ignore_ascii_case(b"return")
}

/// Whether a word alone is a statement that isn't built yet.
pub(crate) fn is_later_word(word: &[u8]) -> bool
    ensures { result ≡ is_one_of later_words word.now }
{
    is_one_of(&[b"break"], word)
}

/// Whether a word alone is a statement, and so no call.
pub(crate) fn is_word_statement(word: &[u8]) -> bool
    ensures { result ≡ is_word_statement word.now }
{
    is_return(word) || is_later_word(word)
}

/// The form of a block of statements, by its kind.
#[tactic(auto, unfolding(crate::specs::Words::form_named))]
pub(crate) fn form_named(kind: &[u8]) -> Option<GroupForm>
    ensures { result ≡ form_named kind.now }
{
    if kind.eq_ignore_ascii_case(b"group") {
        Some(GroupForm::Group)
    } else if kind.eq_ignore_ascii_case(b"redundant") {
        Some(GroupForm::Redundant)
    } else if kind.eq_ignore_ascii_case(b"load-balance") {
        Some(GroupForm::LoadBalance)
    } else if kind.eq_ignore_ascii_case(b"redundant-load-balance") {
        Some(GroupForm::RedundantLoadBalance)
    } else {
        None
    }
}

/// The word that begins an arm of an `if`.
#[derive(Clone, Copy, Debug, PartialEq, Eq)]
pub enum ArmWord {
    If,
    Elsif,
    Else,
}

/// The word of an arm, by a block's kind.
#[tactic(auto, unfolding(crate::specs::Words::arm_named))]
pub(crate) fn arm_named(kind: &[u8]) -> Option<ArmWord>
    ensures { result ≡ arm_named kind.now }
{
    if kind.eq_ignore_ascii_case(b"if") {
        Some(ArmWord::If)
    } else if kind.eq_ignore_ascii_case(b"elsif") {
        Some(ArmWord::Elsif)
    } else if kind.eq_ignore_ascii_case(b"else") {
        Some(ArmWord::Else)
    } else {
        None
    }
}

/// The blocks that are statements and no calls, beside `update`, the arms of `if`, `group` and its kin.
const LATER_BLOCKS: [&[u8]; 4] = [b"switch", b"foreach", b"map", b"parallel"];

/// Whether a block of this kind is a statement that isn't built yet.
pub(crate) fn is_later_block(kind: &[u8]) -> bool
    ensures { result ≡ is_one_of later_blocks kind.now }
{
    is_one_of(&LATER_BLOCKS, kind)
}

/// Whether a block of this kind is an update.
pub(crate) fn is_update(kind: &[u8]) -> bool
    ensures { result ≡ str_eq_ignore_ascii_case kind.now (codes "update") }
{
    kind.eq_ignore_ascii_case(b"update")
}

/// Whether a block of this kind is a statement of its own, and so no call.
pub(crate) fn is_keyword(kind: &[u8]) -> bool
    ensures { result ≡ is_keyword kind.now }
{
    is_update(kind)
        || form_named(kind).is_some()
        || arm_named(kind).is_some()
        || is_later_block(kind)
}
