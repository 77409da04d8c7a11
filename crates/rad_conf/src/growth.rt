//! A tree that grows over the marks of its text.

ghost use Rattle.std.specs.Prelude.{◌≡◌, ◌+◌, ◌<◌, ◌≤◌, ◌^◌, length, reverse, OnOk};
ghost use Rattle.rad_conf.specs.Answers.{IsTextFault, Steps};
ghost use Rattle.rad_conf.specs.Growth.{fault_of, closes, ended, with_item, with_block, counted, begun, resumed, first_growth};

use crate::fault::{ConfFault, Wrong};
use crate::tree::{Branch, Conf, Item, Node, Word};
use rad_outside::{NoMemory, Place};
use rad_text::place_at;
use sqlite_items::Items;
use std::alloc::Global;
use std::mem;

/// The octets that the files have at most together: 4 MiB.
const LONGEST: usize = 4_194_304;

/// A block that is open, and the nodes that stand before it in its own block.
#[derive(Drop)]
pub struct Open {
    pub place: Place,
    pub kind: Word,
    pub name: Option<Word>,
    pub before: Branch,
}

/// A tree that grows: the line that is read, the blocks that are open, the innermost last, and the
/// nodes of the innermost so far; how many of the blocks were opened outside the file that is read;
/// and how many octets the files have so far.
#[derive(Drop)]
pub struct Growth {
    pub line: u32,
    pub opens: Items<Open>,
    pub nodes: Branch,
    pub outside: usize,
    pub octets: usize,
}

/// The fault of what is wrong at a place.
fn fault_at(place: Place, wrong: Wrong) -> ConfFault
    ensures { result ≡ fault_of place.file place.line wrong }
{
    match wrong {
        Wrong::Stray => ConfFault::Stray(place),
        Wrong::BadQuote => ConfFault::BadQuote(place),
        Wrong::NoVariable => ConfFault::NoVariable(place),
    }
}

impl Growth {
    /// Nothing so far.
    pub fn new(alloc: Global) -> Growth
        ensures { result ≡ first_growth }
    {
        Growth {
            line: 1,
            opens: Items::new(alloc),
            nodes: Branch::new(alloc),
            outside: 0,
            octets: 0,
        }
    }

    /// The fault of what is wrong on the line that is read, or want of memory for its place.
    pub fn fault(&self, alloc: Global, file: &[u8], wrong: Wrong) -> ConfFault
        ensures { IsTextFault (fault_of file.now self.now.line wrong) result }
    {
        match place_at(alloc, file, self.line) {
            Err(NoMemory) => ConfFault::NoMemory,
            Ok(place) => fault_at(place, wrong),
        }
    }

    /// Adds a whole item.
    pub fn add(&mut self, alloc: Global, file: &[u8], item: Item) -> Result<(), NoMemory>
        ensures { OnOk result (self.new ≡ with_item file.now item self.old) }
    {
        let place = place_at(alloc, file, self.line)?;
        self.nodes.push(Node { place, item })?;
        Ok(())
    }

    /// Begins a block, in whose head so many lines end.
    pub fn begin(
        &mut self,
        alloc: Global,
        file: &[u8],
        kind: Word,
        name: Option<Word>,
        lines: usize,
    ) -> Result<(), NoMemory>
        requires { self.old.line + lines < 2 ^ 32 }
        ensures { OnOk result (self.new ≡ with_block file.now kind name lines self.old) }
    {
        let place = place_at(alloc, file, self.line)?;
        let before = mem::replace(&mut self.nodes, Branch::new(alloc));
        self.opens.push(Open {
            place,
            kind,
            name,
            before,
        })?;
        self.line += lines as u32;
        Ok(())
    }

    /// Ends the innermost block, where the file that is read has opened one.
    #[tactic(auto, using(crate::proofs::Opens::reverse_push, crate::proofs::Opens::turned))]
    pub fn close(&mut self, alloc: Global, file: &[u8]) -> Result<(), ConfFault>
        ensures { Steps (closes file.now self.old (reverse self.old.opens)) self.new result }
    {
        if self.opens.len() <= self.outside {
            return Err(self.fault(alloc, file, Wrong::Stray));
        }
        let Some(block) = self.opens.pop() else {
            return Err(self.fault(alloc, file, Wrong::Stray));
        };
        let Open {
            place,
            kind,
            name,
            before,
        } = block;
        let body = mem::replace(&mut self.nodes, before).into_list();
        let item = Item::Block(kind, name, body);
        self.nodes.push(Node { place, item })?;
        Ok(())
    }

    /// A file's end, where the file may have no block open.
    #[tactic(auto, using(crate::proofs::Opens::reverse_push, crate::proofs::Opens::turned))]
    pub fn end(&mut self) -> Result<(), ConfFault>
        ensures { Steps (ended self.old) self.new result }
    {
        if self.outside >= self.opens.len() {
            return Ok(());
        }
        match self.opens.pop() {
            Some(block) => Err(ConfFault::Unclosed(block.place)),
            None => Ok(()),
        }
    }

    /// Counts the octets of one more file.
    pub fn count(&mut self, alloc: Global, file: &[u8], text: &[u8]) -> Result<(), ConfFault>
        ensures exact { Steps (counted file.now text.now self.old) self.new result }
        ensures fits { OnOk result (length text.now ≤ 4194304) }
    {
        let octets = self.octets.saturating_add(text.len());
        if octets > LONGEST {
            return Err(ConfFault::TooLong(place_at(alloc, file, 0)?));
        }
        self.octets = octets;
        Ok(())
    }

    /// Another line begins.
    pub fn next_line(&mut self)
        requires { self.old.line + 1 < 2 ^ 32 }
        ensures { self.new ≡ record self.old { line = self.old.line + 1 } }
    {
        self.line += 1;
    }

    /// A file begins, on its first line and inside the blocks that are open.
    pub fn enter(&mut self)
        ensures { self.new ≡ begun self.old }
    {
        self.line = 1;
        self.outside = self.opens.len();
    }

    /// The file around it goes on, on this line and inside so many blocks.
    pub fn leave(&mut self, line: u32, outside: usize)
        ensures { self.new ≡ resumed line outside self.old }
    {
        self.line = line;
        self.outside = outside;
    }

    /// The tree.
    pub fn into_conf(self) -> Conf
        ensures { result ≡ self.nodes }
    {
        let Growth { nodes, .. } = self;
        Conf::of(nodes)
    }
}
