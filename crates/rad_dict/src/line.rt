//! The lines of a dictionary file.

ghost use Rattle.std.specs.Prelude.{◌≡◌, codes, IfSome};
ghost use Rattle.std.specs.Option.{option_map};
ghost use Rattle.std.specs.Str.{str_eq_ignore_ascii_case};
ghost use Rattle.rad_dict.specs.Lines.{statement_of, line_of, IsWellNamed, IsWellNamedLine, kind_of, attribute_at, value_at, vendor_at, only_word, keyword_line, line_at};

use crate::line_words::{is_ended, last_at, word_at};
use crate::name_forms::{is_attr_name, is_value_name};
use rad_text::numeral_of;
use rad_words::Kind;

/// What a line states.
#[derive(Clone, Copy)]
pub enum Statement<'a> {
    Nothing,
    /// A name, a number and a kind.
    Attribute(&'a [u8], u32, Kind),
    /// An attribute's name, a name and a number.
    Value(&'a [u8], &'a [u8], u32),
    /// A name and a number.
    Vendor(&'a [u8], u32),
    /// The vendor whose attributes begin.
    Begin(&'a [u8]),
    /// The vendor whose attributes end.
    End(&'a [u8]),
}

/// A line that states something, or includes the file of a path.
#[derive(Clone, Copy)]
pub enum Line<'a> {
    States(Statement<'a>),
    Include(&'a [u8]),
}

fn is_word(word: &[u8], text: &[u8]) -> bool
    ensures { result ≡ str_eq_ignore_ascii_case word.now text.now }
{
    word.eq_ignore_ascii_case(text)
}

/// The kind that a word names; any other word names octets.
#[tactic(auto, unfolding(crate::specs::Lines::kind_of))]
fn kind_of(word: &[u8]) -> Kind
    ensures { result ≡ kind_of word.now }
{
    if is_word(word, b"string") {
        Kind::Text
    } else if is_word(word, b"ipaddr") {
        Kind::Addr
    } else if is_word(word, b"integer") {
        Kind::Number
    } else if is_word(word, b"date") {
        Kind::Date
    } else if is_word(word, b"byte") {
        Kind::Byte
    } else if is_word(word, b"short") {
        Kind::Short
    } else {
        Kind::Octets
    }
}

/// `ATTRIBUTE name number kind [flags]`; with a flag the kind is octets.
#[tactic(auto, unfolding(crate::specs::Lines::attribute_at))]
fn attribute_at(text: &[u8]) -> Option<Statement>
    ensures exact { option_map statement_of result ≡ attribute_at text.now }
    ensures named { IfSome result (λ statement. IsWellNamed (statement_of statement)) }
{
    let (name, rest) = word_at(text)?;
    let (number, rest) = word_at(rest)?;
    let number = numeral_of(number)?;
    let (kind, rest) = word_at(rest)?;
    let kind = if last_at(rest)? {
        Kind::Octets
    } else {
        kind_of(kind)
    };
    if is_attr_name(name) {
        Some(Statement::Attribute(name, number, kind))
    } else {
        None
    }
}

/// `VALUE attribute name number`
#[tactic(auto, unfolding(crate::specs::Lines::value_at))]
fn value_at(text: &[u8]) -> Option<Statement>
    ensures exact { option_map statement_of result ≡ value_at text.now }
    ensures named { IfSome result (λ statement. IsWellNamed (statement_of statement)) }
{
    let (attr, rest) = word_at(text)?;
    let (name, rest) = word_at(rest)?;
    let (number, rest) = word_at(rest)?;
    let number = numeral_of(number)?;
    if is_value_name(name) && is_ended(rest) {
        Some(Statement::Value(attr, name, number))
    } else {
        None
    }
}

/// `VENDOR name number [format]`; the format is passed over.
#[tactic(auto, unfolding(crate::specs::Lines::vendor_at))]
fn vendor_at(text: &[u8]) -> Option<Statement>
    ensures exact { option_map statement_of result ≡ vendor_at text.now }
    ensures named { IfSome result (λ statement. IsWellNamed (statement_of statement)) }
{
    let (name, rest) = word_at(text)?;
    let (number, rest) = word_at(rest)?;
    let number = numeral_of(number)?;
    let _format = last_at(rest)?;
    Some(Statement::Vendor(name, number))
}

/// One word, and nothing behind it.
#[tactic(auto, unfolding(crate::specs::Lines::only_word))]
fn only_word(text: &[u8]) -> Option<&[u8]>
    ensures { option_map (λ x. x.now) result ≡ only_word text.now }
{
    let (word, rest) = word_at(text)?;
    if is_ended(rest) { Some(word) } else { None }
}

/// A line from behind its keyword on.
#[tactic(auto, unfolding(crate::specs::Lines::keyword_line))]
fn keyword_line<'a>(keyword: &[u8], text: &'a [u8]) -> Option<Line<'a>>
    ensures exact { option_map line_of result ≡ keyword_line keyword.now text.now }
    ensures named { IfSome result (λ line. IsWellNamedLine (line_of line)) }
{
    if is_word(keyword, b"ATTRIBUTE") {
        Some(Line::States(attribute_at(text)?))
    } else if is_word(keyword, b"VALUE") {
        Some(Line::States(value_at(text)?))
    } else if is_word(keyword, b"VENDOR") {
        Some(Line::States(vendor_at(text)?))
    } else if is_word(keyword, b"BEGIN-VENDOR") {
        Some(Line::States(Statement::Begin(only_word(text)?)))
    } else if is_word(keyword, b"END-VENDOR") {
        Some(Line::States(Statement::End(only_word(text)?)))
    } else if is_word(keyword, b"$INCLUDE") {
        Some(Line::Include(only_word(text)?))
    } else {
        None
    }
}

/// A line of a dictionary file, by its keyword in any case; none where it is bad.
#[tactic(auto, unfolding(crate::specs::Lines::line_at))]
pub fn line_at(text: &[u8]) -> Option<Line>
    ensures exact { option_map line_of result ≡ line_at text.now }
    ensures named { IfSome result (λ line. IsWellNamedLine (line_of line)) }
{
    match word_at(text) {
        None => Some(Line::States(Statement::Nothing)),
        Some((keyword, rest)) => keyword_line(keyword, rest),
    }
}
