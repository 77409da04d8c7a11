//! The parts of a script's word, which colons part.
use rad_outside::{NoMemory, Octets};
use rad_sessions::{Change, Session};
use shared_cases::decimal;
use std::alloc::Global;

/// The first part of a word, and what stands behind its colon.
pub fn split_word(word: &[u8]) -> (&[u8], &[u8]) {
    match word.iter().position(|octet| *octet == b':') {
        Some(place) if place < word.len() => {
            let (first, _) = word.split_at(place);
            let (_, rest) = word.split_at(place + 1);
            (first, rest)
        }
        _ => (word, &[]),
    }
}

/// The parts of a text.
#[derive(Drop)]
pub struct Parts<'a> {
    list: Vec<&'a [u8]>,
}

impl<'a> Parts<'a> {
    pub fn of(alloc: Global, text: &'a [u8]) -> Result<Parts<'a>, NoMemory> {
        let mut list = Vec::new(alloc);
        for part in text.split(|octet| *octet == b':') {
            list.push(part)?;
        }
        Ok(Parts { list })
    }

    /// The part at an index, which is empty beyond the last.
    fn text(&self, index: usize) -> &[u8] {
        match self.list.get(index) {
            Some(part) => part,
            None => &[],
        }
    }

    /// The number of 32 bits at an index.
    pub fn number(&self, index: usize) -> u32 {
        u32::try_from(decimal(self.text(index))).unwrap_or(0)
    }

    /// The session of `NAS:PORT:FRAMED:SINCE:USER:ID`.
    fn session(&self, alloc: Global) -> Result<Session, NoMemory> {
        Ok(Session {
            nas: self.number(0),
            port: self.number(1),
            framed: self.number(2),
            since: decimal(self.text(3)),
            user: Octets::of(alloc, self.text(4))?,
            id: Octets::of(alloc, self.text(5))?,
        })
    }
}

/// The change of a word, or none where it is no change's.
pub fn change_of(alloc: Global, word: &[u8]) -> Result<Option<Change>, NoMemory> {
    let (first, rest) = split_word(word);
    let parts = Parts::of(alloc, rest)?;
    Ok(match first {
        b"begin" => Some(Change::Begin(parts.session(alloc)?)),
        b"renew" => Some(Change::Renew {
            nas: parts.number(0),
            port: parts.number(1),
            framed: parts.number(2),
        }),
        b"end" => Some(Change::End {
            nas: parts.number(0),
            port: parts.number(1),
        }),
        b"clear" => Some(Change::Clear {
            nas: parts.number(0),
        }),
        _ => None,
    })
}
