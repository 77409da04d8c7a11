ghost use Rattle.std.specs.Prelude.{◌≡◌, ◌++◌, ◌∷◌, ◌↔◌, [], Some, IsSome, IfOk, IfSome, OnOk, OnErr, IsTrue, All, is_some};
ghost use Rattle.std.specs.Option.{option_map, option_to_list};
ghost use Rattle.rad_outside.specs.Telling.{Counts};
ghost use Rattle.rad_outside.specs.Crew.{handed_by};
ghost use Rattle.rad_edge.specs.MemCrew.{IsFresh, HandsNext, next_kit, after_kit};

use super::failing::Failing;
use super::room::push_within;
use rad_outside::{Crew, Kit, KitFault, Listen, NoMemory, Wire};
use std::alloc::Global;
use std::collections::VecDeque;
use std::marker::Model;
use std::snapshot::Snapshot;

/// What a call was given and the kit that it answered. Of all but the worker's number only clauses see more.
#[derive(Drop)]
struct Handing<W, S, K, U, G> {
    worker: u32,
    listen: Snapshot<Listen>,
    control: Option<Snapshot<Listen>>,
    kit: Snapshot<Kit<W, S, K, U, G>>,
}

/// A crew in memory, which hands out the kits that were added, in order. It fails where no kit is left, and where the
/// next one doesn't have a control wire exactly where one is asked for; then it keeps that kit. A call that is to fail
/// hands out none and keeps them all.
#[derive(Drop)]
pub struct MemCrew<W: Wire + Drop, S: Drop, K: Drop, U: Drop, G: Drop> {
    spares: VecDeque<Kit<W, S, K, U, G>>,
    handed: Vec<Handing<W, S, K, U, G>>,
    faults: u64,
    calls: Failing<u64>,
}

impl<W: Wire + Drop, S: Drop, K: Drop, U: Drop, G: Drop> Model for MemCrew<W, S, K, U, G> {
    ghost use Rattle.std.specs.Prelude.{All, map};
    ghost use Rattle.std.specs.Option.{option_map};
    ghost use Rattle.rad_edge.specs.MemCrew.{CrewState, IsFresh};

    ghost Value = { CrewState W S K U G };

    ghost view = { λ c. record {
      spares = c.spares.items;
      handed = map (λ h. record {
        worker = h.worker;
        listen = h.listen.value;
        control = option_map (λ l. l.value) h.control;
        kit = h.kit.value;
      }) c.handed.items;
      faults = c.faults;
      calls = c.calls;
    } };

    ghost invariant = { λ c. All (IsFresh W.failures_in_a_row) c.spares.items };
}

impl<W: Wire + Drop, S: Drop, K: Drop, U: Drop, G: Drop> MemCrew<W, S, K, U, G> {
    /// A crew with no kit, and the numbers of the calls that are to fail, counted from 1.
    pub fn new(alloc: Global, failing: Vec<u64>) -> MemCrew<W, S, K, U, G>
        ensures { result ≡ record {
          spares = [];
          handed = [];
          faults = 0;
          calls = record { failing = failing.items; made = 0 };
        } }
    {
        MemCrew {
            spares: VecDeque::new(alloc),
            handed: Vec::new(alloc),
            faults: 0,
            calls: Failing::new(failing),
        }
    }

    /// Adds a kit behind the others. No ask of its wires may have failed last.
    pub fn add(&mut self, kit: Kit<W, S, K, U, G>) -> Result<(), NoMemory>
        requires { IsFresh W.failures_in_a_row kit }
        ensures ok { OnOk result (self.new ≡ record {
          spares = self.old.spares ++ kit ∷ [];
          handed = self.old.handed;
          faults = self.old.faults;
          calls = self.old.calls;
        }) }
        ensures err { OnErr result (self.new ≡ self.old) }
    {
        self.spares.push_back(kit)?;
        Ok(())
    }
}

impl<W: Wire + Drop, S: Drop, K: Drop, U: Drop, G: Drop> Crew<W, S, K, U, G>
    for MemCrew<W, S, K, U, G> {
    ghost told = { λ c. Some c.handed };

    ghost faults = { λ c. c.faults };

    fn kit(
        &mut self,
        _alloc: Global,
        worker: u32,
        listen: &Listen,
        control: Option<&Listen>,
    ) -> Result<Kit<W, S, K, U, G>, KitFault>
        ensures told { self.new.handed ≡ self.old.handed ++ handed_by worker listen.now control.entry result }
        ensures faults { Counts self.old.faults self.new.faults (result ≡ Err KitFault.Failed) }
        ensures control { IfOk result (λ kit. IsSome kit.control ↔ IsSome control.entry) }
        ensures fresh { IfOk result (λ kit. (W.failures_in_a_row kit.wire ≡ 0)
            × IfSome kit.control (λ wire. W.failures_in_a_row wire ≡ 0)) }
        ensures next { HandsNext self.old (is_some control.entry) result }
        ensures state { self.new ≡ after_kit self.old worker listen.now control.entry result }
    {
        if self.calls.next() {
            self.faults = self.faults.saturating_add(1);
            return Err(KitFault::Failed);
        }
        if self.handed.reserve(1).is_err() {
            return Err(KitFault::NoMemory);
        }
        match take_next(&mut self.spares, control.is_some()) {
            Some(kit) => {
                let handing = Handing {
                    worker,
                    listen: Snapshot::of(listen),
                    control: snapshot_of(control),
                    kit: Snapshot::of(&kit),
                };
                push_within(&mut self.handed, handing);
                Ok(kit)
            }
            None => {
                self.faults = self.faults.saturating_add(1);
                Err(KitFault::Failed)
            }
        }
    }
}

/// Takes the next kit, where it has a control wire exactly as is asked.
fn take_next<W: Wire, S, K, U, G>(
    spares: &mut VecDeque<Kit<W, S, K, U, G>>,
    with_control: bool,
) -> Option<Kit<W, S, K, U, G>>
    requires { All (IsFresh W.failures_in_a_row) spares.old.items }
    ensures next { result ≡ next_kit spares.old.items with_control }
    ensures rest { spares.old.items ≡ option_to_list result ++ spares.new.items }
    ensures left { All (IsFresh W.failures_in_a_row) spares.new.items }
    ensures fresh { IfSome result (IsFresh W.failures_in_a_row) }
    ensures control { IfSome result (λ kit. IsSome kit.control ↔ IsTrue with_control) }
{
    if spares.front()?.control.is_some() != with_control {
        return None;
    }
    spares.pop_front()
}

/// What the clauses see of a listener that may be there.
fn snapshot_of(listen: Option<&Listen>) -> Option<Snapshot<Listen>>
    ensures { option_map (λ s. s.value) result ≡ option_map (λ l. l.now) listen.entry }
{
    match listen {
        Some(listen) => Some(Snapshot::of(listen)),
        None => None,
    }
}
