//! The laws of the grammar: how what is read is written, apart from how it is read.

ghost use Rattle.rad_conf.specs.Grammar.{ReadsSingle, ReadsDouble};
ghost use Rattle.rad_conf.specs.Spelling.{ReadsWords, SpellsWords};
ghost use Rattle.rad_conf.specs.Written.{ReadsConf, SpellsConf};
ghost use Rattle.rad_conf.specs.WrittenLines.{EndsLines, EndsWindowsLines, JoinsLines};

/// What is written between quotes is read back, whatever has been read before. It does nothing when it runs.
pub fn quoted_words_are_read_back()
    // Each text without a newline, between single quotes.
    ensures single { ReadsSingle }
    // Each text without a `$`, between double quotes.
    ensures double { ReadsDouble }
{}

/// A word is read exactly where it is spelled: bare, in single quotes or in double quotes, with its escapes
/// and variables, whatever has been read before and whatever follows it. It does nothing when it runs.
pub fn words_are_read_as_they_are_spelled()
    // What is spelled so is read.
    ensures read { ReadsWords }
    // What is read is spelled so.
    ensures spelled { SpellsWords }
{}

/// A configuration is read exactly where its items are written: pairs, names, blocks to any depth,
/// conditions, includes, comments and what parts them, with each node's place. It does nothing when it runs.
pub fn configurations_are_read_as_they_are_written()
    // What is written so is read.
    ensures read { ReadsConf }
    // What is read is written so.
    ensures written { SpellsConf }
{}

/// A text without a newline is a line wherever a newline ends it, or a carriage return and a newline; and a
/// backslash before the newline joins the next line to it, so that the lines behind keep their numbers.
/// It does nothing when it runs.
pub fn lines_are_read_as_they_are_written()
    ensures newline { EndsLines }
    ensures carriage_return { EndsWindowsLines }
    ensures joined { JoinsLines }
{}
