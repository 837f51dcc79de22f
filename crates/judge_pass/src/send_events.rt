//! Answers that break nothing, as they are noted.

ghost use Rattle.std.specs.Prelude.{◌≡◌, ◌+◌, ◌<◌, ◌^◌, ℕ, List, OnOk, length, reverse};
ghost use Rattle.hist_model.specs.Look.{ev};
ghost use Rattle.hist_model.specs.declared.event.Actor.TheVariants.{Worker};
ghost use Rattle.hist_model.specs.declared.event.What.TheVariants.{Send};
ghost use Rattle.hist_model.specs.declared.policy.Policy.{Policy};
ghost use Rattle.hist_model.specs.declared.script.Script.{Script};
ghost use Rattle.judge_pass.specs.Stands.{Stands};
ghost use Rattle.judge_pass.specs.Tables.{number_named};
ghost use Rattle.judge_pass.specs.Takes.{Settles, SettlesWith, Takes};
ghost use Rattle.judge_pass.specs.Told.{NotesTold};
ghost use Rattle.judge_pass.specs.Within.{AreAmong, IsWithin};

use crate::judge::Judge;
use crate::told::note_told;
use hist_model::event::{Back, Event};
use sys_abi::errno::Errno;
use sys_abi::memory::NoMemory;

impl Judge {
    /// An answer was sent that breaks nothing.
    pub(crate) fn send(
        &mut self,
        before: &[Event],
        worker: usize,
        id: u64,
        back: &Back,
        answer: &Result<(), Errno>,
    ) -> Result<(), NoMemory>
        requires within { IsWithin self.old }
        requires among { AreAmong (length before.now) self.old }
        requires worker { worker < 17 }
        requires few { self.old.counts.answers + 1 < 2 ^ 64 }
        ensures { OnOk result (Takes self.old self.new (λ S K e. (e ≡ ev (Worker worker) (Send id back.now answer.now)) × (before.now ≡ reverse K))) }
    {
        self.note_answer_told(before, worker, back, answer)?;
        self.settle_where_taken(id, answer);
        self.counts.answers += 1;
        self.seats[worker].has_sent = true;
        Ok(())
    }

    /// Notes what an answer tells, if it is a success that the kernel takes.
    fn note_answer_told(
        &mut self,
        before: &[Event],
        worker: usize,
        back: &Back,
        answer: &Result<(), Errno>,
    ) -> Result<(), NoMemory>
        requires within { IsWithin self.old }
        requires among { AreAmong (length before.now) self.old }
        requires worker { worker < 17 }
        ensures noted { OnOk result ((P : Policy) (S : Script) (id : ℕ) → Stands P S (reverse before.now) self.old
            → NotesTold (reverse before.now) (ev (Worker worker) (Send id back.now answer.now)) self.old self.new) }
        ensures rest { self.new ≡ record self.old { done = self.new.done } }
    {
        match (back, answer) {
            (Back::Value(_), Ok(())) => note_told(self, before, worker),
            _ => Ok(()),
        }
    }

    /// The listed call with this id is answered, where the kernel takes the answer.
    fn settle_where_taken(&mut self, id: u64, answer: &Result<(), Errno>)
        ensures { SettlesWith answer.now (number_named self.old.calls.first self.old.calls.rows.items id) self.old self.new }
    {
        match answer {
            Ok(()) => self.settle(id),
            Err(_errno) => {}
        }
    }

    /// The listed call with this id is answered.
    fn settle(&mut self, id: u64)
        ensures { Settles (number_named self.old.calls.first self.old.calls.rows.items id) self.old self.new }
    {
        if let Some(call) = self.calls.named(id) {
            self.calls.rows[call].is_settled = true;
        }
    }
}
