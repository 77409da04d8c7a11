//! A command line that was read.

ghost use Rattle.std.specs.Prelude.{◌≡◌, map, string_bytes, IfOk};
ghost use Rattle.std.specs.Option.{option_map};
ghost use Rattle.std.specs.List.{slice_get};
ghost use Rattle.rad_args.specs.Words.{arguments, read_words, has_letter};
ghost use Rattle.rad_args.specs.Found.{value_of, plain_words};
ghost use Rattle.rad_args.specs.declared.reading.Reading.TheVariants as reading;

use crate::item::Item;
use crate::once::{are_once, has_letter};
use crate::reading::Reading;
use crate::word::put_word;
use rad_outside::NoMemory;
use std::alloc::Global;
use std::marker::Model;

/// The items of a command line, in order; no letter stands twice.
#[derive(Debug, Drop)]
pub struct Arguments {
    items: Vec<Item>,
}

impl Model for Arguments {
    ghost use Rattle.std.specs.Prelude.{List};
    ghost use Rattle.rad_args.specs.declared.item.Item.{Item};

    ghost Value = { List Item };

    ghost view = { λ a. a.items.items };
}

/// The items of the words behind the program's name, or none where a word is refused or a letter lacks its value.
#[tactic(auto, unfolding(crate::specs::Words::read_words))]
fn read_words(
    alloc: Global,
    flags: &[u8],
    options: &[u8],
    words: &[String],
) -> Result<Option<Vec<Item>>, NoMemory>
    ensures { IfOk result (λ read. option_map (λ items. items.items) read ≡ read_words flags.now options.now reading.Letters (map string_bytes words.now)) }
{
    let mut items = Vec::new(alloc);
    let mut reading = Reading::Letters;
    let mut rest = words;
    while let Some((word, after)) = rest.split_first() {
        match put_word(alloc, &mut items, flags, options, reading, word.as_bytes())? {
            Some(next) => reading = next,
            None => return Ok(None),
        }
        rest = after;
    }
    match reading {
        Reading::Value(_) => Ok(None),
        _ => Ok(Some(items)),
    }
}

impl Arguments {
    /// The items of a command line, for a program that has these letters without a value (`flags`) and with one (`options`).
    /// The first word is the program's name, which isn't looked at. None where there is no word, a word is refused, a letter
    /// lacks its value or stands twice.
    #[tactic(auto, unfolding(crate::specs::Words::arguments))]
    pub fn read(
        alloc: Global,
        flags: &[u8],
        options: &[u8],
        words: &[String],
    ) -> Result<Option<Arguments>, NoMemory>
        ensures { IfOk result (λ read. read ≡ arguments flags.now options.now (map string_bytes words.now)) }
    {
        let Some((_, words)) = words.split_first() else {
            return Ok(None);
        };
        match read_words(alloc, flags, options, words)? {
            Some(items) if are_once(items.as_slice()) => Ok(Some(Arguments { items })),
            _ => Ok(None),
        }
    }

    /// Whether a letter was given, with a value or without.
    pub fn has(&self, letter: u8) -> bool
        ensures { result ≡ has_letter letter self.now }
    {
        has_letter(self.items.as_slice(), letter)
    }

    /// The value of a letter.
    pub fn value(&self, letter: u8) -> Option<&[u8]>
        ensures { option_map (λ v. v.now) result ≡ value_of letter self.now }
    {
        let mut rest = self.items.as_slice();
        while let Some((item, after)) = rest.split_first() {
            if let Some(value) = item.value_in(letter) {
                return Some(value);
            }
            rest = after;
        }
        None
    }

    /// The plain word at a position from 0, or none exactly where there are no more.
    pub fn plain(&self, index: usize) -> Option<&[u8]>
        ensures { option_map (λ v. v.now) result ≡ slice_get (plain_words self.now) index }
    {
        let mut left = index;
        let mut rest = self.items.as_slice();
        while let Some((item, after)) = rest.split_first() {
            if let Item::Plain(word) = item {
                match left {
                    0 => return Some(word.as_slice()),
                    _ => left -= 1,
                }
            }
            rest = after;
        }
        None
    }
}
