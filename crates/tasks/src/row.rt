//! What is kept of one task.

ghost use Rattle.std.specs.Prelude.{◌≡◌, ◌+◌, ◌<◌, ◌^◌, ℕ, false};
ghost use Rattle.hist_model.specs.declared.event.What.TheVariants.{Enter, Deliver, Handler};
ghost use Rattle.tasks.specs.Rows.{IsAfter, new_progress};

use crate::signals::BySignal;
use hist_model::event::{Back, Delivered, Disposition, Entered, What};
use hist_model::text::TaskName;

/// A call that a task entered: its number and arguments.
#[derive(Clone, Copy, PartialEq, Eq, Debug)]
pub struct EnteredCall {
    pub nr: i32,
    pub args: [u64; 6],
}

/// How far a task is, what is pending for it, and whether it has ended.
#[derive(Clone, Copy, Debug)]
pub struct Progress {
    /// The ordinal of its group.
    pub group: u32,
    /// The place of its program in the script.
    pub program: u32,
    /// The place of its next instruction.
    pub next: usize,
    /// The id of the listed call in which it waits.
    pub call: Option<u64>,
    /// The call that it entered last.
    pub entered: Option<EnteredCall>,
    /// Its last step left it a native call to make.
    pub owes: bool,
    pub ended: bool,
    /// Its parent has waited for it.
    pub waited: bool,
    pub pending: BySignal<bool>,
    pub dispositions: BySignal<Disposition>,
}

/// A task.
#[derive(Drop)]
pub struct Task {
    pub name: TaskName,
    pub pid: u32,
    /// The ordinal of its parent; the first task has none.
    pub parent: Option<u32>,
    /// An entry for each spawn and thread that it executed: the ordinal of the child, or none where it was refused.
    pub children: Vec<Option<u32>>,
    /// The ordinals of the children for which it hasn't waited, in the order in which they were made.
    pub waiting: Vec<u32>,
    pub progress: Progress,
}

impl Progress {
    /// A task that has taken no step.
    pub fn new(group: u32, program: u32, dispositions: BySignal<Disposition>) -> Progress
        ensures { result ≡ new_progress group program dispositions }
    {
        Progress {
            group,
            program,
            next: 0,
            call: None,
            entered: None,
            owes: false,
            ended: false,
            waited: false,
            pending: BySignal::all(false),
            dispositions,
        }
    }

    /// The task moved past its next instruction, and without a native call to make.
    pub fn advanced(self) -> Progress
        ensures next { self.next + 1 < 2 ^ 64 → result.next ≡ self.next + 1 }
        ensures rest { result ≡ record self { next = result.next; owes = false } }
    {
        Progress {
            next: self.next.saturating_add(1),
            owes: false,
            ..self
        }
    }

    /// The task after it has entered a call.
    fn entering(self, nr: i32, args: [u64; 6], verdict: Entered) -> Progress
        ensures { IsAfter self (Enter nr args verdict) result }
    {
        let call = match verdict {
            Entered::Notify { id } => Some(id),
            _ => self.call,
        };
        Progress {
            call,
            entered: Some(EnteredCall { nr, args }),
            owes: matches!(verdict, Entered::Allow | Entered::Log),
            ended: self.ended || matches!(verdict, Entered::Kill),
            ..self.advanced()
        }
    }

    /// The task after a signal was delivered to it.
    fn signalled(self, sig: u8, effect: Delivered) -> Progress
        ensures { IsAfter self (Deliver sig effect) result }
    {
        let next = match effect {
            Delivered::Restart => self.next.saturating_sub(1),
            _ => self.next,
        };
        let mut pending = self.pending;
        pending.set(sig, false);
        Progress {
            next,
            call: None,
            owes: false,
            ended: self.ended || matches!(effect, Delivered::End),
            pending,
            ..self
        }
    }

    /// The task after it has set what it does at a signal.
    fn handling(self, sig: u8, disposition: Disposition) -> Progress
        ensures { IsAfter self (Handler sig disposition) result }
    {
        let mut dispositions = self.dispositions;
        dispositions.set(sig, disposition);
        Progress {
            dispositions,
            ..self.advanced()
        }
    }

    /// The task after its own step. A place in a program fits: there are fewer instructions than events.
    pub fn after(self, what: &What) -> Progress
        ensures { IsAfter self what.now result }
    {
        match what {
            What::Enter { nr, args, verdict } => self.entering(*nr, *args, *verdict),
            What::Handler { sig, disposition } => self.handling(*sig, *disposition),
            What::Spawn { .. } | What::Poke { .. } | What::Signal { .. } | What::Reap { .. } => {
                self.advanced()
            }
            What::Resume { back } => Progress {
                call: None,
                owes: matches!(back, Back::Continue),
                ..self
            },
            What::Deliver { sig, effect } => self.signalled(*sig, *effect),
            What::Exit => Progress {
                owes: false,
                ended: true,
                ..self
            },
            What::Skip => self,
            _ => Progress {
                owes: false,
                ..self
            },
        }
    }
}
