//! What an answer to a deed tells of the session.

ghost use Rattle.std.specs.Prelude.{◌≡◌, ℕ, ℤ, List, Option};
ghost use Rattle.hist_model.specs.Deeds as definition;
ghost use Rattle.hist_model.specs.declared.event.Back.{Back};
ghost use Rattle.hist_model.specs.declared.policy.Cap.{Cap};
ghost use Rattle.hist_model.specs.declared.request.Request.{Request};
ghost use Rattle.sys_abi.specs.declared.wire.Addfd.{Addfd};
ghost use Rattle.broker_core.specs.Answers.{deed_of, step_of, told};
ghost use Rattle.broker_core.specs.Taking.{Noted};

use crate::deed::{Deed, Got};
use crate::session::Session;
use sys_abi::errno::Errno;

impl Session {
    /// The memory was opened, or was to be. The work ends where its task has died.
    fn note_memory(&mut self, got: &Got<'_>)
        ensures { (pid : ℕ) → Noted (step_of (definition.OpenMem pid) (told got.now)) self.old self.new }
    {
        match got {
            Got::Ok => self.opened = true,
            Got::Fault(error) => {
                self.opened = true;
                self.gave_up = *error == Errno::ESRCH || self.gave_up;
            }
            _ => {}
        }
    }

    /// The base was opened, or was to be. The work ends where its task has died.
    fn note_base(&mut self, got: &Got<'_>)
        ensures { (pid : ℕ) (dirfd : ℤ) → Noted (step_of (definition.OpenBase pid dirfd) (told got.now)) self.old self.new }
    {
        match got {
            Got::Ok => self.based = true,
            Got::Fault(error) => {
                self.based = true;
                self.gave_up = *error == Errno::ESRCH || self.gave_up;
            }
            _ => {}
        }
    }

    /// The work ends after a failed check. (What a good check changes, the stage, is no matter of this one.)
    fn note_check(&mut self, got: &Got<'_>)
        ensures { (id : ℕ) → Noted (step_of (definition.Check id) (told got.now)) self.old self.new }
    {
        match got {
            Got::Fault(_) => self.gave_up = true,
            _ => {}
        }
    }

    /// The outcome of an effect.
    fn note_outcome(&mut self, got: &Got<'_>)
        ensures act { (request : Request) (cap : Option Cap) → Noted (step_of (definition.Act request cap) (told got.now)) self.old self.new }
        ensures plant { (addr : ℕ) (bytes : List ℕ) (cap : Option Cap) → Noted (step_of (definition.Plant addr bytes cap) (told got.now)) self.old self.new }
    {
        match got {
            Got::Ok => self.outcome = Some(Ok(())),
            Got::Fault(error) => self.outcome = Some(Err(*error)),
            _ => {}
        }
    }

    /// The outcome of a request for a descriptor. The work ends where the call is gone.
    fn note_put(&mut self, got: &Got<'_>)
        ensures { (asked : Addfd) → Noted (step_of (definition.AddfdPut asked) (told got.now)) self.old self.new }
    {
        match got {
            Got::Ok => self.put = Some(Ok(())),
            Got::Fault(error) => {
                self.put = Some(Err(*error));
                self.gave_up = *error == Errno::ENOENT || self.gave_up;
            }
            _ => {}
        }
    }

    /// The outcome of taking its number. The work ends with the number, and where the call is gone.
    fn note_take(&mut self, got: &Got<'_>)
        ensures { Noted (step_of definition.AddfdTake (told got.now)) self.old self.new }
    {
        match got {
            Got::Number(number) => {
                self.take = Some(Ok(*number));
                self.gave_up = true;
            }
            Got::Fault(error) => {
                self.take = Some(Err(*error));
                self.gave_up = *error == Errno::ENOENT || self.gave_up;
            }
            _ => {}
        }
    }

    /// The work ends with the answer, whether or not it was taken.
    fn note_sent(&mut self, got: &Got<'_>)
        ensures { (id : ℕ) (back : Back) → Noted (step_of (definition.Send id back) (told got.now)) self.old self.new }
    {
        match got {
            Got::Ok | Got::Fault(_) => self.gave_up = true,
            _ => {}
        }
    }

    /// Notes what an answer tells, but for the stage.
    #[tactic(auto, using(crate::proofs::Taken::tells_nothing))]
    pub(crate) fn note(&mut self, deed: &Deed, got: &Got<'_>)
        ensures { (q : Request) (b : List ℕ) → Noted (step_of (deed_of q b deed.now) (told got.now)) self.old self.new }
    {
        match deed {
            Deed::OpenMem { .. } => self.note_memory(got),
            Deed::OpenBase { .. } => self.note_base(got),
            Deed::Check { .. } => self.note_check(got),
            Deed::Act { .. } | Deed::Plant { .. } => self.note_outcome(got),
            Deed::AddfdPut(_) => self.note_put(got),
            Deed::AddfdTake => self.note_take(got),
            Deed::Send { .. } => self.note_sent(got),
            Deed::Recv | Deed::Read { .. } | Deed::LetGo => {}
        }
    }
}
