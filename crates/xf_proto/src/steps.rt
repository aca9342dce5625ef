//! One step, and a list of them.
ghost use Rattle.std.specs.Prelude.{◌≡◌, ◌+◌, ◌<◌, ◌^◌, ◌↔◌, length, true, Some, None, Err, slice_get, IfErr, OnOk, OnErr};
ghost use Rattle.xf_proto.specs.SeatState.{SeatState};
ghost use Rattle.xf_proto.specs.Legality.{may_step};
ghost use Rattle.xf_proto.specs.Effects.{state_after};
ghost use Rattle.xf_proto.specs.Table.{row_of, LeadTo};
ghost use Rattle.xf_proto.specs.Runs.{place_of_fault, StopsAt};
ghost use Rattle.xf_proto.specs.declared.step.StepFault.TheVariants as fault;

use crate::state::State;
use crate::step::{Kind, Step, StepFault};
use xf_types::NoMemory;

impl State {
    /// Makes the steps in order, up to the first that can't be made.
    pub fn run(&mut self, steps: &[Step]) -> Result<(), StepFault>
        requires room { self.old.steps + length steps.now < 2 ^ 62 }
        ensures ok { OnOk result (LeadTo self.old steps.now self.new) }
        ensures fault { IfErr result (λ f. StopsAt self.old steps.now f self.new) }
    {
        for at in 0..steps.len() {
            match self.step(&steps[at]) {
                Ok(()) => {}
                Err(StepFault::Illegal { .. }) => {
                    return Err(StepFault::Illegal { at: at as u64 });
                }
                Err(StepFault::NoMemory { .. }) => {
                    return Err(StepFault::NoMemory { at: at as u64 });
                }
            }
        }
        Ok(())
    }

    /// Makes one step where the table has a row for it.
    pub fn step(&mut self, step: &Step) -> Result<(), StepFault>
        requires room { self.old.steps + 1 < 2 ^ 62 }
        ensures ok { OnOk result (row_of self.old step.now ≡ Some self.new) }
        ensures illegal { (result ≡ Err (fault.Illegal 0)) ↔ (row_of self.old step.now ≡ None) }
        ensures one { IfErr result (λ f. place_of_fault f ≡ 0) }
        ensures err { OnErr result (self.new ≡ self.old) }
    {
        let i = step.actor as usize;
        if !self.has_row(i, &step.kind) {
            return Err(StepFault::Illegal { at: 0 });
        }
        match self.make(i, &step.kind) {
            Ok(()) => Ok(()),
            Err(NoMemory) => Err(StepFault::NoMemory { at: 0 }),
        }
    }

    /// Makes a legal step.
    fn make(&mut self, i: usize, kind: &Kind) -> Result<(), NoMemory>
        requires room { self.old.steps + 1 < 2 ^ 62 }
        requires seat { i < length self.old.seats }
        requires legal { (s : SeatState) → slice_get self.old.seats i ≡ Some s → may_step self.old i s.hand kind.now ≡ true }
        ensures ok { OnOk result ((s : SeatState) → slice_get self.old.seats i ≡ Some s → self.new ≡ state_after self.old i s kind.now) }
        ensures err { OnErr result (self.new ≡ self.old) }
    {
        match kind {
            Kind::Ticket => {
                self.make_ticket(i);
                Ok(())
            }
            Kind::Serving => {
                self.make_serving(i);
                Ok(())
            }
            Kind::Begin => {
                self.make_begin(i);
                Ok(())
            }
            Kind::Store { place, value } => self.make_store(i, *place, *value),
            Kind::Draw { receipt } => self.make_draw(i, receipt),
            Kind::Finish => {
                self.make_finish(i);
                Ok(())
            }
            Kind::Leave => {
                self.make_leave(i);
                Ok(())
            }
            Kind::LoadGeneration => self.make_load_generation(i),
            Kind::LoadWord { place } => {
                self.make_load_word(i, *place);
                Ok(())
            }
            Kind::Pin => {
                self.make_pin(i);
                Ok(())
            }
            Kind::Unpin => {
                self.make_unpin(i);
                Ok(())
            }
            Kind::LoadPin { seat } => self.make_load_pin(i, *seat),
            Kind::TakeTurn { slot } => self.make_take_turn(i, *slot),
            Kind::GiveTurn { slot } => {
                self.make_give_turn(i, *slot);
                Ok(())
            }
        }
    }
}
