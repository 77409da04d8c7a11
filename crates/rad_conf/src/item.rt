//! Items: pairs, names alone, heads of blocks and includes.

ghost use Rattle.std.specs.Prelude.{◌≡◌, ◌+◌, ◌<◌, ◌≤◌, length, IfOk};
ghost use Rattle.rad_text.specs.Read.{Gives};
ghost use Rattle.rad_conf.specs.Signs.{sign_at};
ghost use Rattle.rad_conf.specs.Marks.{ended_at, stands_alone, pair_at, opened_at, block_at, named, item_by, plain_item, condition_item, include_item, keyword_of, item_at, lines_in};

use crate::condition::condition_at;
use crate::fault::Wrong;
use crate::growth::Growth;
use crate::mark::Mark;
use crate::sign::{Sign, after_first, sign_at};
use crate::tree::{Item, Quote, Word};
use crate::word::{bare_len, is_condition, word_at};
use rad_outside::{NoMemory, Octets};
use rad_text::{ReadError, after_blanks};
use std::alloc::Global;

/// What a bare word begins.
#[derive(Clone, Copy, Debug, PartialEq, Eq)]
pub enum Keyword {
    /// No keyword.
    Plain,
    /// `if` and `elsif`.
    Condition,
    /// `$INCLUDE`
    Include,
    /// `$-INCLUDE`
    TryInclude,
}

/// A bare word of this text.
fn bare(alloc: Global, text: &[u8]) -> Result<Word, NoMemory>
    ensures { IfOk result (λ word. (word.quote ≡ Quote.Bare) × (word.text ≡ text.now)) }
{
    Ok(Word {
        quote: Quote::Bare,
        text: Octets::of(alloc, text)?,
    })
}

/// A mark behind which the item has to end.
fn ended(whole: Mark, text: &[u8]) -> Result<(Mark, &[u8]), ReadError<Wrong>>
    ensures exact { Gives (λ x. (x.0, x.1.now)) result (ended_at whole text.now) }
    ensures rest { IfOk result (λ x. (x.0 ≡ whole) × (length x.1.now ≤ length text.now)) }
{
    if !sign_at(text).ends_item() {
        return Err(ReadError::Wrong(Wrong::Stray));
    }
    Ok((whole, text))
}

/// Whether the right word behind an operator may be missing.
#[tactic(auto, unfolding(crate::specs::Marks::stands_alone))]
fn stands_alone(operator: &[u8]) -> bool
    ensures { result ≡ stands_alone operator.now }
{
    operator == b"=*".as_slice() || operator == b"!*".as_slice()
}

/// A pair from behind its operator on.
#[tactic(auto, unfolding(crate::specs::Marks::pair_at))]
fn pair_at<'a>(
    alloc: Global,
    growth: &Growth,
    left: Word,
    operator: &[u8],
    text: &'a [u8],
) -> Result<(Mark, &'a [u8]), ReadError<Wrong>>
    ensures exact { Gives (λ x. (x.0, x.1.now)) result (pair_at growth.now left operator.now text.now) }
    ensures rest { IfOk result (λ x. (lines_in x.0 ≡ 0) × (length x.1.now ≤ length text.now)) }
{
    let text = after_blanks(text);
    let sign = Octets::of(alloc, operator)?;
    if stands_alone(operator) && sign_at(text).ends_item() {
        let right = bare(alloc, &[])?;
        return Ok((Mark::Whole(Item::Pair(left, sign, right)), text));
    }
    let (right, rest) = word_at(alloc, growth, text)?;
    ended(
        Mark::Whole(Item::Pair(left, sign, right)),
        after_blanks(rest),
    )
}

/// The opening brace of a block that has a name.
fn opened_at(
    kind: Word,
    name: Word,
    lines: usize,
    text: &[u8],
) -> Result<(Mark, &[u8]), ReadError<Wrong>>
    ensures exact { Gives (λ x. (x.0, x.1.now)) result (opened_at kind name lines text.now) }
    ensures rest { IfOk result (λ x. (lines_in x.0 ≡ lines) × (length x.1.now ≤ length text.now)) }
{
    if !sign_at(text).is_open() {
        return Err(ReadError::Wrong(Wrong::Stray));
    }
    Ok((Mark::Opens(kind, Some(name), lines), after_first(text)))
}

/// A block from its name on.
#[tactic(auto, unfolding(crate::specs::Marks::block_at))]
fn block_at<'a>(
    alloc: Global,
    growth: &Growth,
    kind: Word,
    text: &'a [u8],
) -> Result<(Mark, &'a [u8]), ReadError<Wrong>>
    ensures exact { Gives (λ x. (x.0, x.1.now)) result (block_at growth.now kind text.now) }
    ensures rest { IfOk result (λ x. (lines_in x.0 ≡ 0) × (length x.1.now ≤ length text.now)) }
{
    let (name, rest) = word_at(alloc, growth, text)?;
    opened_at(kind, name, 0, after_blanks(rest))
}

/// A name alone, which is a bare word.
fn named(first: Word, text: &[u8]) -> Result<(Mark, &[u8]), ReadError<Wrong>>
    ensures exact { Gives (λ x. (x.0, x.1.now)) result (named first first.quote text.now) }
    ensures rest { IfOk result (λ x. (lines_in x.0 ≡ 0) × (length x.1.now ≤ length text.now)) }
{
    match first.quote {
        Quote::Bare => Ok((Mark::Whole(Item::Name(first)), text)),
        Quote::Single | Quote::Double => Err(ReadError::Wrong(Wrong::Stray)),
    }
}

/// An item from behind its first word and the blanks after it on.
fn item_by<'a>(
    alloc: Global,
    growth: &Growth,
    first: Word,
    text: &'a [u8],
) -> Result<(Mark, &'a [u8]), ReadError<Wrong>>
    ensures exact { Gives (λ x. (x.0, x.1.now)) result (item_by growth.now (sign_at text.now) first text.now) }
    ensures rest { IfOk result (λ x. (lines_in x.0 ≡ 0) × (length x.1.now ≤ length text.now)) }
{
    match sign_at(text) {
        Sign::End | Sign::LineEnd | Sign::Comma | Sign::Close | Sign::Comment => named(first, text),
        Sign::Open => Ok((Mark::Opens(first, None, 0), after_first(text))),
        Sign::Operator(len) => {
            let (operator, rest) = text.split_at(len);
            pair_at(alloc, growth, first, operator, rest)
        }
        Sign::Bare(_) | Sign::Double | Sign::Single => block_at(alloc, growth, first, text),
        Sign::Blank => Err(ReadError::Wrong(Wrong::Stray)),
    }
}

/// An item whose first word is no keyword.
#[tactic(auto, unfolding(crate::specs::Marks::plain_item))]
fn plain_item<'a>(
    alloc: Global,
    growth: &Growth,
    text: &'a [u8],
) -> Result<(Mark, &'a [u8]), ReadError<Wrong>>
    ensures exact { Gives (λ x. (x.0, x.1.now)) result (plain_item growth.now text.now) }
    ensures rest { IfOk result (λ x. (lines_in x.0 ≡ 0) × (length x.1.now < length text.now)) }
{
    let (first, rest) = word_at(alloc, growth, text)?;
    item_by(alloc, growth, first, after_blanks(rest))
}

/// A block from behind its kind on whose name is a condition.
#[tactic(auto, unfolding(crate::specs::Marks::condition_item))]
fn condition_item<'a>(
    alloc: Global,
    growth: &Growth,
    kind: &[u8],
    text: &'a [u8],
) -> Result<(Mark, &'a [u8]), ReadError<Wrong>>
    ensures exact { Gives (λ x. (x.0, x.1.now)) result (condition_item growth.now kind.now text.now) }
    ensures rest { IfOk result (λ x. lines_in x.0 + length x.1.now ≤ length text.now) }
{
    let kind = bare(alloc, kind)?;
    let (condition, rest) = condition_at(alloc, growth, text)?;
    let name = Word {
        quote: Quote::Bare,
        text: condition.text,
    };
    opened_at(kind, name, condition.lines, after_blanks(rest))
}

/// An include from behind its keyword on.
#[tactic(auto, unfolding(crate::specs::Marks::include_item))]
fn include_item<'a>(
    alloc: Global,
    growth: &Growth,
    optional: bool,
    text: &'a [u8],
) -> Result<(Mark, &'a [u8]), ReadError<Wrong>>
    ensures exact { Gives (λ x. (x.0, x.1.now)) result (include_item growth.now optional text.now) }
    ensures rest { IfOk result (λ x. (lines_in x.0 ≡ 0) × (length x.1.now ≤ length text.now)) }
{
    let (path, rest) = word_at(alloc, growth, text)?;
    ended(Mark::Includes(optional, path.text), after_blanks(rest))
}

/// What a bare word begins, in any case of its ASCII letters.
#[tactic(auto, unfolding(crate::specs::Marks::keyword_of))]
fn keyword_of(word: &[u8]) -> Keyword
    ensures { result ≡ keyword_of word.now }
{
    if is_condition(word) {
        Keyword::Condition
    } else if word.eq_ignore_ascii_case(b"$INCLUDE") {
        Keyword::Include
    } else if word.eq_ignore_ascii_case(b"$-INCLUDE") {
        Keyword::TryInclude
    } else {
        Keyword::Plain
    }
}

/// An item up to its end, or a block up to its opening brace.
#[tactic(auto, using(crate::proofs::WordLemmas::condition_some, crate::proofs::WordLemmas::include_some, crate::proofs::WordLemmas::try_some), unfolding(crate::specs::Marks::item_at))]
pub fn item_at<'a>(
    alloc: Global,
    growth: &Growth,
    text: &'a [u8],
) -> Result<(Mark, &'a [u8]), ReadError<Wrong>>
    ensures exact { Gives (λ x. (x.0, x.1.now)) result (item_at growth.now text.now) }
    ensures shorter { IfOk result (λ x. length x.1.now < length text.now) }
    ensures lines { IfOk result (λ x. lines_in x.0 + length x.1.now ≤ length text.now) }
{
    let (word, rest) = text.split_at(bare_len(text));
    match keyword_of(word) {
        Keyword::Plain => plain_item(alloc, growth, text),
        Keyword::Condition => condition_item(alloc, growth, word, after_blanks(rest)),
        Keyword::Include => include_item(alloc, growth, false, after_blanks(rest)),
        Keyword::TryInclude => include_item(alloc, growth, true, after_blanks(rest)),
    }
}
