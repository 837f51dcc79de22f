//! What the policy says of a call, by the copies that were found valid, or by its registers.

ghost use Rattle.std.specs.Prelude.{◌≡◌, ℕ, List, reverse, All, not, is_some, IfOk};
ghost use Rattle.broker_verdict.specs.Answers.{denies_by, denies_by_registers, has_known, is_error_said, is_pass_said};
ghost use Rattle.broker_verdict.specs.Answers.{leads_to_error, leads_to_pass, passes_by_registers};
ghost use Rattle.broker_verdict.specs.Choices.{by_registers};
ghost use Rattle.broker_verdict.specs.Seats as seats;
ghost use Rattle.hist_model.specs.Copies.{Progress};
ghost use Rattle.hist_model.specs.declared.event.Event.{Event};
ghost use Rattle.hist_model.specs.declared.policy.Policy.{Policy};
ghost use Rattle.hist_model.specs.declared.script.Script.{Script};
ghost use Rattle.broker_judge.specs.Called.{IsCalled};
ghost use Rattle.broker_judge.specs.Copied.{Comes, IsAnswered};
ghost use Rattle.broker_judge.specs.Said.{AreGrounds, HasTimes, IsSaid};

use crate::called::{Called, decide_with, is_relative, request_without};
use crate::copies::{BothCopies, Copied, make_copies};
use crate::granting::is_used_up;
use crate::reads::{SeatRead, Worth};
use crate::registers::by_registers;
use hist_model::policy::{Policy, Verdict};
use policy_eval::conditions::path_of;
use std::alloc::Global;
use sys_abi::errno::Errno;
use sys_abi::memory::NoMemory;

/// What the policy says of a call by its registers, and the copies of its arguments that were found valid.
#[derive(Drop)]
pub struct Said {
    registers: Option<(usize, Verdict)>,
    made: BothCopies,
}

/// What a policy says of a call, of which a seat has these reads, the oldest first.
pub fn said_of(
    alloc: Global,
    policy: &Policy,
    called: &Called,
    reads: &[SeatRead],
) -> Result<Said, NoMemory>
    requires { All IsAnswered reads.now }
    ensures { IfOk result (λ said. (K : List Event) (w c : ℕ) → IsCalled K c called.now → seats.reads K w ≡ reverse reads.now
        → IsSaid policy.now K w c said) }
{
    Ok(Said {
        registers: by_registers(policy, &request_without(alloc, called)),
        made: make_copies(alloc, reads, Worth::Valid, called.nr, &called.args)?,
    })
}

/// What an error is judged by, beside what the policy says: how often effects of each rule were done, and whether the call's
/// descriptor leads to no directory, as the seat was answered.
#[derive(Clone, Copy)]
pub struct Grounds<'a> {
    pub policy: &'a Policy,
    pub times: &'a [u64],
    pub is_base_refused: bool,
}

impl Said {
    /// Whether a copy is known, or its fault.
    pub fn has_known(&self) -> bool
        ensures { (P : Policy) (K : List Event) (w c : ℕ) → IsSaid P K w c self.now → result ≡ has_known K w c }
    {
        self.made.newest.is_known() || self.made.planned.is_known()
    }

    /// Whether the policy says nothing by registers.
    pub fn is_silent(&self) -> bool
        ensures { (P : Policy) (K : List Event) (w c : ℕ) → IsSaid P K w c self.now → result ≡ not (is_some (by_registers P K c)) }
    {
        self.registers.is_none()
    }

    /// Whether the rule that decides by registers answers the error.
    fn denies_by_registers(&self, grounds: &Grounds<'_>, errno: Errno) -> bool
        requires { HasTimes grounds.now }
        ensures { (S : Script) (K : List Event) (w c : ℕ) → IsSaid grounds.now.policy.now K w c self.now
            → AreGrounds S K w grounds.now → result ≡ denies_by_registers grounds.now.policy.now K c errno }
    {
        match &self.registers {
            Some((rule, verdict)) => denies_by(grounds, *rule, verdict, errno),
            None => false,
        }
    }

    /// Whether the rule that decides by registers passes the call.
    fn passes_by_registers(&self) -> bool
        ensures { (P : Policy) (K : List Event) (w c : ℕ) → IsSaid P K w c self.now → result ≡ passes_by_registers P K c }
    {
        match &self.registers {
            Some((_rule, verdict)) => *verdict == Verdict::Pass,
            None => false,
        }
    }

    /// Whether a copy leads to the error: it is the copy's fault, or what the policy says.
    fn leads_to_error(
        &self,
        alloc: Global,
        grounds: &Grounds<'_>,
        called: &Called,
        errno: Errno,
        copied: &Copied,
    ) -> Result<bool, NoMemory>
        requires { HasTimes grounds.now }
        ensures { IfOk result (λ b. (S : Script) (K : List Event) (w c : ℕ) (p : Progress) → IsCalled K c called.now
            → IsSaid grounds.now.policy.now K w c self.now → AreGrounds S K w grounds.now → Comes p copied.now
            → b ≡ leads_to_error grounds.now.policy.now S K w c errno p) }
    {
        match copied {
            Copied::Missing => Ok(false),
            Copied::Faulty(fault) => {
                Ok(*fault == errno || self.denies_by_registers(grounds, errno))
            }
            Copied::Whole(texts) => {
                let decided = decide_with(alloc, grounds.policy, called, texts.as_slice())?;
                let lacks_base = decided.verdict == Verdict::Grant
                    && errno == Errno::EBADF
                    && grounds.is_base_refused
                    && is_relative(path_of(&decided.request));
                Ok(denies_by(grounds, decided.rule, &decided.verdict, errno) || lacks_base)
            }
        }
    }

    /// Whether the error is what the policy says of a copy, or by registers where none is known.
    pub fn says_error(
        &self,
        alloc: Global,
        grounds: &Grounds<'_>,
        called: &Called,
        errno: Errno,
    ) -> Result<bool, NoMemory>
        requires { HasTimes grounds.now }
        ensures { IfOk result (λ b. (S : Script) (K : List Event) (w c : ℕ) → IsCalled K c called.now
            → IsSaid grounds.now.policy.now K w c self.now → AreGrounds S K w grounds.now
            → b ≡ is_error_said grounds.now.policy.now S K w c errno) }
    {
        if !self.has_known() {
            return Ok(self.denies_by_registers(grounds, errno));
        }
        let by_newest = self.leads_to_error(alloc, grounds, called, errno, &self.made.newest)?;
        let by_planned = self.leads_to_error(alloc, grounds, called, errno, &self.made.planned)?;
        Ok(by_newest || by_planned)
    }

    /// Whether a copy leads to CONTINUE.
    fn leads_to_pass(
        &self,
        alloc: Global,
        policy: &Policy,
        called: &Called,
        copied: &Copied,
    ) -> Result<bool, NoMemory>
        ensures { IfOk result (λ b. (K : List Event) (w c : ℕ) (p : Progress) → IsCalled K c called.now
            → IsSaid policy.now K w c self.now → Comes p copied.now → b ≡ leads_to_pass policy.now K c p) }
    {
        match copied {
            Copied::Missing => Ok(false),
            Copied::Faulty(_) => Ok(self.passes_by_registers()),
            Copied::Whole(texts) => {
                let decided = decide_with(alloc, policy, called, texts.as_slice())?;
                Ok(decided.verdict == Verdict::Pass)
            }
        }
    }

    /// Whether the policy passes a copy of the call, or the call by registers where no copy is known.
    pub fn says_pass(
        &self,
        alloc: Global,
        policy: &Policy,
        called: &Called,
    ) -> Result<bool, NoMemory>
        ensures { IfOk result (λ b. (K : List Event) (w c : ℕ) → IsCalled K c called.now → IsSaid policy.now K w c self.now
            → b ≡ is_pass_said policy.now K w c) }
    {
        if !self.has_known() {
            return Ok(self.passes_by_registers());
        }
        let by_newest = self.leads_to_pass(alloc, policy, called, &self.made.newest)?;
        let by_planned = self.leads_to_pass(alloc, policy, called, &self.made.planned)?;
        Ok(by_newest || by_planned)
    }
}

/// Whether the rule at a place, with its verdict, answers the error: of a grant, EDQUOT where its times are spent.
fn denies_by(grounds: &Grounds<'_>, rule: usize, verdict: &Verdict, errno: Errno) -> bool
    requires { HasTimes grounds.now }
    ensures { (S : Script) (K : List Event) (w : ℕ) → AreGrounds S K w grounds.now
        → result ≡ denies_by grounds.now.policy.now K (record { 0 = rule; 1 = verdict.now }) errno }
{
    match verdict {
        Verdict::Deny(denied) => *denied == errno,
        Verdict::Grant => {
            errno == Errno::EDQUOT && is_used_up(grounds.policy, grounds.times, rule)
        }
        Verdict::Pass | Verdict::Inject { .. } => false,
    }
}
