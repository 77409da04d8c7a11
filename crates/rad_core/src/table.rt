//! The table of requests.
ghost use Rattle.std.specs.Prelude.{◌≡◌, ◌+◌, ◌≤◌, ◌++◌, length, filter, find, position, map, option_to_list, vec_capacity};
ghost use Rattle.std.specs.List.{before_first, after_first};
ghost use Rattle.std.specs.Option.{option_copied, option_map};
ghost use Rattle.rad_core.specs.Requests.{is_kept_for, is_run_for, lasts_at, is_at, LastTo};
ghost use Rattle.rad_core.specs.Rows.{key_seen, kept_seen, row_seen};

use crate::kept::Kept;
use crate::key::Key;
use crate::row::Row;
use rad_outside::{NoMemory, Octets};
use rad_policy::Policy;
use std::alloc::Global;
use std::marker::Model;
use std::sync::Arc;

/// The requests in progress, in the order of their places, and the replies that are kept for repeats, in the order of
/// their finishes. There is room for the reply of each request in progress. Each reply lasts to the moment `oldest`, so
/// they are gone through once a second at most.
#[derive(Drop)]
pub(crate) struct Table<P> {
    in_progress: Vec<Row<P>>,
    kept: Vec<Kept>,
    oldest: u64,
}

impl<P> Model for Table<P> {
    ghost use Rattle.std.specs.Prelude.{◌+◌, ◌≤◌, ◌<◌, ◌^◌, map, length, vec_capacity};
    ghost use Rattle.rad_core.specs.Requests.{Requests, LastTo};
    ghost use Rattle.rad_core.specs.Rows.{row_seen, kept_seen};

    ghost Value = { Requests P };

    ghost view = { λ t. record {
      in_progress = map row_seen t.in_progress.items;
      kept = map kept_seen t.kept.items;
    } };

    ghost invariant = { λ t. (length t.kept.items + length t.in_progress.items ≤ vec_capacity t.kept)
        × (length t.kept.items + length t.in_progress.items < 2 ^ 32)
        × LastTo t.oldest (map kept_seen t.kept.items) };
}

impl<P: Drop> Table<P> {
    ghost use Rattle.std.specs.Prelude.{◌≡◌, ◌≤◌, ◌<◌, ◌+◌, ◌^◌, length, OnOk, OnErr, IfSome};
    ghost use Rattle.std.specs.Option.{option_copied};
    ghost use Rattle.rad_core.specs.Requests.{no_requests, size_of, reply_for, place_for, table_at, with_row};
    ghost use Rattle.rad_core.specs.Rows.{key_seen, row_seen};

    /// A table without an entry.
    pub(crate) fn new(alloc: Global) -> Table<P>
        ensures { result ≡ no_requests }
    {
        Table {
            in_progress: Vec::new(alloc),
            kept: Vec::new(alloc),
            oldest: 0,
        }
    }

    /// How many entries there are.
    pub(crate) fn len(&self) -> u32
        ensures { result ≡ size_of self.now }
    {
        (self.kept.len() + self.in_progress.len()) as u32
    }

    /// The replies leave whose keeping time is over at a moment.
    pub(crate) fn pass_to(&mut self, moment: u64)
        ensures { self.new ≡ table_at moment self.old }
    {
        if self.oldest < moment {
            forget(&mut self.kept, moment);
            self.oldest = moment;
        }
    }

    /// The reply that is kept for a key, of at most 4,096 octets.
    pub(crate) fn reply(&self, key: Key) -> Option<&Octets>
        ensures reply { option_copied result ≡ reply_for (key_seen key.entry) self.now }
        ensures fits { IfSome result (λ reply. length reply.now ≤ 4096) }
    {
        match kept_for(self.kept.as_slice(), key) {
            Some(kept) => Some(&*kept.reply),
            None => None,
        }
    }

    /// The place of the request in progress that has a key.
    pub(crate) fn place(&self, key: Key) -> Option<u64>
        ensures { result ≡ place_for (key_seen key.entry) self.now }
    {
        match run_for(self.in_progress.as_slice(), key) {
            Some(row) => Some(row.place),
            None => None,
        }
    }

    /// Puts a request behind those in progress, with room for its reply. Want of memory leaves the table.
    pub(crate) fn admit(&mut self, row: Row<P>) -> Result<(), NoMemory>
        requires few { size_of self.old + 1 < 2 ^ 32 }
        ensures ok { OnOk result (self.new ≡ with_row (row_seen row) self.old) }
        ensures err { OnErr result (self.new ≡ self.old) }
    {
        self.kept.reserve(self.in_progress.len() + 1)?;
        self.in_progress.push(row)?;
        Ok(())
    }
}

impl<P: Policy> Table<P> {
    ghost use Rattle.std.specs.Prelude.{◌≡◌, ◌≤◌, length, IfSome};
    ghost use Rattle.std.specs.Arc.{arc_value};
    ghost use Rattle.std.specs.Option.{option_map};
    ghost use Rattle.rad_outside.specs.Moments.{IsInTime};
    ghost use Rattle.rad_core.specs.Requests.{without_request};

    /// The request of a place has ended at a moment: its reply is kept, where it has one. Takes no memory.
    pub(crate) fn finish(&mut self, place: u64, moment: u64, reply: Option<Arc<Octets>>)
        requires moment { IsInTime moment }
        requires fits { IfSome reply (λ octets. length (arc_value octets) ≤ 4096) }
        ensures { self.new ≡ without_request P.meaning.cleanup_delay moment place (option_map arc_value reply) self.old }
    {
        let Some(row) = taken(&mut self.in_progress, place) else {
            return;
        };
        if let Some(reply) = reply {
            let kept = Kept::of(row, moment, reply);
            self.oldest = self.oldest.min(kept.until);
            self.kept.push_reserved(kept);
        }
    }
}

/// Takes out the replies whose keeping time is over at a moment.
fn forget(kept: &mut Vec<Kept>, moment: u64)
    ensures items { map kept_seen kept.new.items ≡ filter (lasts_at moment) (map kept_seen kept.old.items) }
    ensures last { LastTo moment (map kept_seen kept.new.items) }
    ensures bound { length kept.new.items ≤ length kept.old.items }
    ensures room { vec_capacity kept.new ≡ vec_capacity kept.old }
{
    kept.retain(|reply| reply.lasts_at(moment));
}

/// The kept reply of a key.
fn kept_for<'a>(kept: &'a [Kept], key: Key) -> Option<&'a Kept>
    ensures { option_map kept_seen (option_copied result) ≡ find (is_kept_for (key_seen key.entry)) (map kept_seen kept.now) }
{
    kept.iter().find(|kept| kept.is_of(key))
}

/// The request of a key.
fn run_for<'a, P>(rows: &'a [Row<P>], key: Key) -> Option<&'a Row<P>>
    ensures { option_map row_seen (option_copied result) ≡ find (is_run_for (key_seen key.entry)) (map row_seen rows.now) }
{
    rows.iter().find(|row| row.is_of(key))
}

/// Takes out the request of a place.
fn taken<P>(rows: &mut Vec<Row<P>>, place: u64) -> Option<Row<P>>
    ensures taken { option_map row_seen result ≡ find (is_at place) (map row_seen rows.old.items) }
    ensures left { map row_seen rows.new.items ≡ before_first (is_at place) (map row_seen rows.old.items) ++ after_first (is_at place) (map row_seen rows.old.items) }
    ensures fewer { length rows.new.items + length (option_to_list result) ≡ length rows.old.items }
{
    match index_of(rows.as_slice(), place) {
        Some(index) => Some(rows.remove(index)),
        None => None,
    }
}

/// Where the request of a place stands.
fn index_of<P>(rows: &[Row<P>], place: u64) -> Option<usize>
    ensures { result ≡ position (λ row. is_at place (row_seen row)) rows.now }
{
    rows.iter().position(|row| row.is_at(place))
}
