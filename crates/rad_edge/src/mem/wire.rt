ghost use Rattle.std.specs.Prelude.{◌≡◌, ◌≤◌, ◌++◌, ◌∷◌, [], Some, IfSome, IsErr, IsTrue, is_ok, is_some, length, take, OnOk};
ghost use Rattle.rad_outside.specs.Telling.{Tells, Counts};
ghost use Rattle.rad_outside.specs.Wire.{heard_of, FitsBuffer, failures_after, IsEnding};
ghost use Rattle.rad_edge.specs.Failing.{fails_next};
ghost use Rattle.rad_edge.specs.MemWire.{FollowsScript, ReceivesNext, SendsNext, has_ended, next_answer};
ghost use Rattle.std.specs.Option.{option_to_list};

use super::failing::Failing;
use super::room::push_within;
use rad_outside::{Failed, Got, Heard, NoMemory, Octets, Peer, Sent, Wire};
use std::alloc::Global;
use std::collections::VecDeque;
use std::marker::Model;

/// What a wire in memory is to answer.
#[derive(Debug, Drop)]
pub enum Cue {
    /// A datagram and its source.
    Datagram(Octets, Peer),
    Quiet,
}

/// A wire in memory, which answers a script and then that it ended. It fails where it is to, and where it finds no memory
/// for its record.
#[derive(Debug, Drop)]
pub struct MemWire {
    alloc: Global,
    script: VecDeque<Cue>,
    heard: Vec<Heard>,
    sent: Vec<Sent>,
    is_telling: bool,
    faults: u64,
    failures_in_a_row: u64,
    receives: Failing<u64>,
    sends: Failing<u64>,
}

impl Model for MemWire {
    ghost use Rattle.rad_edge.specs.Memory.{told_while};
    ghost use Rattle.rad_edge.specs.MemWire.{WireState};

    ghost Value = { WireState };

    ghost view = { λ w. record {
      script = w.script.items;
      told = told_while w.is_telling (record { heard = w.heard.items; sent = w.sent.items });
      faults = w.faults;
      failures_in_a_row = w.failures_in_a_row;
      receives = w.receives;
      sends = w.sends;
    } };
}

impl MemWire {
    /// A wire that has this script before it, and the numbers of the asks and of the sends that are to fail, each counted
    /// from 1. An ask that is to fail takes nothing from the script, and goes before the end.
    pub fn new(
        alloc: Global,
        script: Vec<Cue>,
        failing_receives: Vec<u64>,
        failing_sends: Vec<u64>,
    ) -> MemWire
        ensures { result ≡ record {
          script = script.items;
          told = Some (record { heard = []; sent = [] });
          faults = 0;
          failures_in_a_row = 0;
          receives = record { failing = failing_receives.items; made = 0 };
          sends = record { failing = failing_sends.items; made = 0 };
        } }
    {
        MemWire {
            alloc,
            script: VecDeque::from_vec(script),
            heard: Vec::new(alloc),
            sent: Vec::new(alloc),
            is_telling: true,
            faults: 0,
            failures_in_a_row: 0,
            receives: Failing::new(failing_receives),
            sends: Failing::new(failing_sends),
        }
    }

    /// Whether the wire tells, as it does until it finds no memory for its record.
    pub fn is_telling(&self) -> bool
        ensures { result ≡ is_some self.now.told }
    {
        self.is_telling
    }

    /// The answers so far, in order.
    pub fn heard(&self) -> &[Heard]
        ensures { IfSome self.now.told (λ told. result.now ≡ told.heard) }
    {
        self.heard.as_slice()
    }

    /// The datagrams that were handed in, in order.
    pub fn sent(&self) -> &[Sent]
        ensures { IfSome self.now.told (λ told. result.now ≡ told.sent) }
    {
        self.sent.as_slice()
    }
}

impl Wire for MemWire {
    ghost told = { λ w. w.told };

    ghost faults = { λ w. w.faults };

    ghost failures_in_a_row = { λ w. w.failures_in_a_row };

    ghost has_ended = { has_ended };

    fn recv(&mut self, buffer: &mut [u8; 4096]) -> Got
        ensures bound { FitsBuffer result }
        ensures buffer { length buffer.new ≡ 4096 }
        ensures told { Tells self.old.told self.new.told (λ before now.
            (now.heard ≡ before.heard ++ heard_of result buffer.new ∷ []) × (now.sent ≡ before.sent)) }
        ensures faults { Counts self.old.faults self.new.faults (result ≡ Got.Failed) }
        ensures row { self.new.failures_in_a_row ≡ failures_after result self.old.failures_in_a_row }
        ensures end { IsEnding (has_ended self.old) (has_ended self.new) result }
        ensures script { FollowsScript self.old.script (heard_of result buffer.new) }
        ensures plan { IsTrue (fails_next self.old.receives) → result ≡ Got.Failed }
        ensures state { ReceivesNext self.old (heard_of result buffer.new) self.new }
    {
        let is_to_fail = self.receives.next();
        let is_recorded = self.heard.reserve(1).is_ok();
        if is_to_fail || !is_recorded {
            if is_recorded {
                push_within(&mut self.heard, Heard::Failed);
            } else {
                self.is_telling = false;
            }
            self.faults = self.faults.saturating_add(1);
            self.failures_in_a_row = self.failures_in_a_row.saturating_add(1);
            return Got::Failed;
        }
        let (got, heard) = play(self.script.pop_front(), buffer);
        push_within(&mut self.heard, heard);
        self.failures_in_a_row = 0;
        got
    }

    fn send(&mut self, to: Peer, bytes: &[u8]) -> Result<(), Failed>
        ensures told { Tells self.old.told self.new.told (λ before now.
            (now.heard ≡ before.heard)
            × (now.sent ≡ before.sent ++ record { to = to; octets = bytes.now; done = is_ok result } ∷ [])) }
        ensures faults { Counts self.old.faults self.new.faults (IsErr result) }
        ensures row { self.new.failures_in_a_row ≡ self.old.failures_in_a_row }
        ensures end { has_ended self.new ≡ has_ended self.old }
        ensures plan { IsTrue (fails_next self.old.sends) → IsErr result }
        ensures state { SendsNext to bytes.now self.old result self.new }
    {
        let done = !self.sends.next();
        let is_recorded = push_sent(self.alloc, &mut self.sent, to, bytes, done).is_ok();
        if !is_recorded {
            self.is_telling = false;
        }
        if done && is_recorded {
            return Ok(());
        }
        self.faults = self.faults.saturating_add(1);
        Err(Failed)
    }
}

/// The answer to a cue, or to a script that is used up, with the datagram's octets at the buffer's front.
fn play(cue: Option<Cue>, buffer: &mut [u8; 4096]) -> (Got, Heard)
    ensures bound { FitsBuffer result.0 }
    ensures buffer { length buffer.new ≡ 4096 }
    ensures heard { result.1 ≡ heard_of result.0 buffer.new }
    ensures answer { result.1 ≡ next_answer (option_to_list cue) }
{
    match cue {
        Some(Cue::Datagram(octets, from)) => {
            let mut octets = octets.into_vec();
            octets.truncate(4096);
            let count = octets.len();
            fill_front(buffer, octets.as_slice());
            (
                Got::Datagram(count, from),
                Heard::Datagram(Octets::from_vec(octets), from),
            )
        }
        Some(Cue::Quiet) => (Got::Quiet, Heard::Quiet),
        None => (Got::Ended, Heard::Ended),
    }
}

/// Puts the octets at the buffer's front.
fn fill_front(buffer: &mut [u8; 4096], octets: &[u8])
    requires { length octets.now ≤ 4096 }
    ensures len { length buffer.new ≡ 4096 }
    ensures front { take (length octets.now) buffer.new ≡ octets.now }
{
    buffer[..octets.len()].copy_from_slice(octets);
}

/// Records a datagram that was handed in, and whether the wire took it.
fn push_sent(
    alloc: Global,
    sent: &mut Vec<Sent>,
    to: Peer,
    bytes: &[u8],
    done: bool,
) -> Result<(), NoMemory>
    ensures ok { OnOk result (sent.new.items ≡ sent.old.items ++ record { to = to; octets = bytes.now; done = done } ∷ []) }
{
    let octets = Octets::of(alloc, bytes)?;
    sent.push(Sent { to, octets, done })?;
    Ok(())
}
