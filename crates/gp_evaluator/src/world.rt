//! The world that a run changes.

ghost use Rattle.std.specs.Prelude.{◌≡◌, [], ◌≤◌};
ghost use Rattle.gp_base.specs.Run.{Returned};
ghost use Rattle.gp_base.specs.World as spec;
ghost use Rattle.gp_base.specs.declared.event.Event.TheVariants as event;
ghost use Rattle.gp_evaluator.specs.View.{world_view, Ran};

use crate::halt::Halt;
use gp_base::{Event, Events, GateName, Tag};
use std::alloc::Global;

/// The world that a run changes: the qubits, the turns and the outcomes of measurements that are left, and the events so
/// far.
#[derive(Drop)]
pub struct World<'a> {
    // One flag for each qubit that was allocated, in the order of their numbers: whether it is live.
    flags: Vec<bool>,
    turns: u64,
    outcomes: &'a [bool],
    events: Events,
}

impl<'a> World<'a> {
    /// The world in which a program starts: no qubit, and nothing has happened. Takes no memory.
    pub fn new(alloc: Global, turns: u64, outcomes: &'a [bool]) -> World<'a>
        ensures { world_view result ≡ spec.start turns outcomes.now }
    {
        World {
            flags: Vec::new(alloc),
            turns,
            outcomes,
            events: Events::new(alloc),
        }
    }

    /// The events so far.
    pub fn into_events(self) -> Events
        ensures { result ≡ (world_view self.entry).events }
    {
        self.events
    }

    /// Takes a turn.
    pub fn take_turn(&mut self) -> Result<(), Halt>
        ensures run { Ran (λ u. u) result (world_view self.new) (spec.take_turn (world_view self.old)) }
        ensures fewer { self.new.turns ≤ self.old.turns }
    {
        if self.turns == 0 {
            return Err(Halt::TurnsUsed);
        }
        self.turns -= 1;
        Ok(())
    }

    /// A new qubit begins to live: its number.
    pub fn allocate(&mut self) -> Result<u64, Halt>
        ensures run { Ran (λ q. q) result (world_view self.new) (spec.allocate (world_view self.old)) }
        ensures fewer { self.new.turns ≤ self.old.turns }
    {
        let qubit = self.flags.len() as u64;
        self.flags.push(true)?;
        self.events.push(Event::Alloc(qubit))?;
        Ok(qubit)
    }

    /// A live qubit ends.
    #[tactic(auto, using(crate::proofs::Flags::flags))]
    pub fn free(&mut self, qubit: u64) -> Result<(), Halt>
        ensures run { Ran (λ u. u) result (world_view self.new) (spec.free qubit (world_view self.old)) }
        ensures fewer { self.new.turns ≤ self.old.turns }
    {
        if !self.is_live(qubit) {
            return Err(Halt::Stuck);
        }
        self.flags[qubit as usize] = false;
        self.events.push(Event::Free(qubit))?;
        Ok(())
    }

    /// A live qubit is set to its first state.
    pub fn reset(&mut self, qubit: u64) -> Result<(), Halt>
        ensures run { Ran (λ u. u) result (world_view self.new) (spec.reset qubit (world_view self.old)) }
        ensures fewer { self.new.turns ≤ self.old.turns }
    {
        if !self.is_live(qubit) {
            return Err(Halt::Stuck);
        }
        self.events.push(Event::Reset(qubit))?;
        Ok(())
    }

    /// A live qubit is measured and lives on: the outcome.
    pub fn measure(&mut self, qubit: u64) -> Result<bool, Halt>
        ensures run { Ran (λ b. b) result (world_view self.new) (spec.measure qubit (world_view self.old)) }
        ensures fewer { self.new.turns ≤ self.old.turns }
    {
        if !self.is_live(qubit) {
            return Err(Halt::Stuck);
        }
        let outcome = self.take_outcome()?;
        self.events.push(Event::Measure(qubit, outcome))?;
        Ok(outcome)
    }

    /// A live qubit is measured and ends: the outcome.
    #[tactic(auto, using(crate::proofs::Flags::flags))]
    pub fn measure_free(&mut self, qubit: u64) -> Result<bool, Halt>
        ensures run { Ran (λ b. b) result (world_view self.new) (spec.measure_free qubit (world_view self.old)) }
        ensures fewer { self.new.turns ≤ self.old.turns }
    {
        if !self.is_live(qubit) {
            return Err(Halt::Stuck);
        }
        let outcome = self.take_outcome()?;
        self.flags[qubit as usize] = false;
        self.events.push(Event::MeasureFree(qubit, outcome))?;
        Ok(outcome)
    }

    /// A gate on one live qubit.
    pub fn apply_gate(&mut self, gate: GateName, qubit: u64) -> Result<(), Halt>
        ensures run { Ran (λ u. u) result (world_view self.new) (spec.apply_gate gate qubit (world_view self.old)) }
        ensures fewer { self.new.turns ≤ self.old.turns }
    {
        if !self.is_live(qubit) {
            return Err(Halt::Stuck);
        }
        self.events.push(Event::Gate1(gate, qubit))?;
        Ok(())
    }

    /// A gate on two live qubits that aren't the same one.
    pub fn apply_gate_on_two(&mut self, gate: GateName, first: u64, second: u64) -> Result<(), Halt>
        ensures run { Ran (λ u. u) result (world_view self.new) (spec.apply_gate_on_two gate first second (world_view self.old)) }
        ensures fewer { self.new.turns ≤ self.old.turns }
    {
        if !(self.is_live(first) && self.is_live(second) && first != second) {
            return Err(Halt::Stuck);
        }
        self.events.push(Event::Gate2(gate, first, second))?;
        Ok(())
    }

    /// A gate on three live qubits of which no two are the same one.
    pub fn apply_gate_on_three(
        &mut self,
        gate: GateName,
        first: u64,
        second: u64,
        third: u64,
    ) -> Result<(), Halt>
        ensures run { Ran (λ u. u) result (world_view self.new) (spec.apply_gate_on_three gate first second third (world_view self.old)) }
        ensures fewer { self.new.turns ≤ self.old.turns }
    {
        if !self.are_three_live(first, second, third) {
            return Err(Halt::Stuck);
        }
        self.events.push(Event::Gate3(gate, first, second, third))?;
        Ok(())
    }

    /// A rotation of a live qubit by an angle, in units of 1/65536 turn.
    pub fn rotate(&mut self, gate: GateName, qubit: u64, angle: i64) -> Result<(), Halt>
        ensures run { Ran (λ u. u) result (world_view self.new) (spec.rotate gate qubit angle (world_view self.old)) }
        ensures fewer { self.new.turns ≤ self.old.turns }
    {
        if !self.is_live(qubit) {
            return Err(Halt::Stuck);
        }
        self.events.push(Event::Rotation(gate, qubit, angle))?;
        Ok(())
    }

    /// A whole number is reported under a tag.
    pub fn report_int(&mut self, tag: Tag, value: i64) -> Result<(), Halt>
        ensures run { Ran (λ u. u) result (world_view self.new) (spec.does (event.ResultInt tag value) (world_view self.old)) }
        ensures fewer { self.new.turns ≤ self.old.turns }
    {
        self.events.push(Event::ResultInt(tag, value))?;
        Ok(())
    }

    /// A truth value is reported under a tag.
    pub fn report_bool(&mut self, tag: Tag, value: bool) -> Result<(), Halt>
        ensures run { Ran (λ u. u) result (world_view self.new) (spec.does (event.ResultBool tag value) (world_view self.old)) }
        ensures fewer { self.new.turns ≤ self.old.turns }
    {
        self.events.push(Event::ResultBool(tag, value))?;
        Ok(())
    }

    #[tactic(auto, using(crate::proofs::Flags::flags))]
    fn is_live(&self, qubit: u64) -> bool
        ensures { result ≡ spec.is_live (world_view self.now).flags qubit }
    {
        qubit < self.flags.len() as u64 && self.flags[qubit as usize]
    }

    fn are_three_live(&self, first: u64, second: u64, third: u64) -> bool
        ensures { result ≡ spec.are_three_live (world_view self.now).flags first second third }
    {
        self.is_live(first)
            && self.is_live(second)
            && self.is_live(third)
            && first != second
            && first != third
            && second != third
    }

    // Takes the next outcome.
    fn take_outcome(&mut self) -> Result<bool, Halt>
        ensures run { Ran (λ b. b) result (world_view self.new) (spec.with_outcome (λ outcome w. Returned outcome w) (world_view self.old)) }
        ensures fewer { self.new.turns ≤ self.old.turns }
        ensures flags { self.new.flags ≡ self.old.flags }
    {
        match self.outcomes {
            [outcome, rest @ ..] => {
                self.outcomes = rest;
                Ok(*outcome)
            }
            [] => Err(Halt::OutcomesUsed),
        }
    }
}
