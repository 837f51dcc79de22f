//! The capture of a call's texts.

ghost use Rattle.std.specs.Prelude.{◌≡◌, ◌∷◌, ◌++◌, [], List, Result, ℕ, IfOk, OnOk, OnErr, IsOk, None, ◌≤◌, length};
ghost use Rattle.hist_model.specs.Copies as copies;
ghost use Rattle.hist_model.specs.declared.copy.Part.{Part};
ghost use Rattle.arg_capture.specs.Captures.{continued, wanted, answer_of, Answers, Finishes, Follows, HasRoom, HasRoomForAny, IsKept};

use crate::plan::Plan;
use crate::reading::Reading;
use hist_model::request::{ArgCopy, Fault};
use hist_model::text::Sequence;
use std::alloc::Global;
use std::marker::Model;
use sys_abi::errno::Errno;
use sys_abi::memory::NoMemory;

/// A copy of a call's texts that is read in pieces.
#[derive(Drop)]
pub struct Capture {
    reading: Reading,
    fault: Option<Errno>,
}

impl Model for Capture {
    ghost use Rattle.std.specs.Prelude.{◌≡◌, length, None};
    ghost use Rattle.arg_capture.specs.Captures.{Captured};
    ghost use Rattle.arg_capture.specs.Plans.{IsSettled};

    ghost Value = { Captured };

    ghost view = { λ c. record { reached = c.reading; fault = c.fault } };

    ghost invariant = { λ c. c.fault ≡ None → IsSettled (length c.reading.taken) c.reading.parts };
}

impl Capture {
    /// The capture of a plan of which nothing is read yet.
    pub fn new(alloc: Global, plan: Plan) -> Result<Capture, NoMemory>
        ensures { IfOk result (λ c. Follows plan [] c) }
    {
        let mut reading = Reading::new(alloc, plan)?;
        let fault = reading.settle();
        Ok(Capture { reading, fault })
    }

    /// A capture of no call, which is complete without a text. It takes no memory.
    pub fn nothing(alloc: Global) -> Capture
        ensures { Follows [] [] result }
    {
        Capture {
            reading: Reading::nothing(alloc),
            fault: None,
        }
    }

    /// Makes room for the capture of any call, for `start`.
    pub fn ready_for_any(&mut self) -> Result<(), NoMemory>
        ensures reached { IsKept self.old.reached self.new.reached }
        ensures fault { self.new.fault ≡ self.old.fault }
        ensures room { OnOk result (HasRoomForAny self.new.reached) }
    {
        self.reading.reserve_for_any()
    }

    /// Begins the capture of a plan, of which nothing is read yet, in the place of the one before. It takes no memory, and
    /// there is room for every answer.
    pub fn start(&mut self, plan: Plan)
        requires room { HasRoomForAny self.old.reached }
        requires few { length plan ≤ 4 }
        ensures follows { Follows plan [] self.new }
        ensures room { HasRoom self.new.reached }
    {
        self.reading.start(plan);
        self.fault = self.reading.settle();
    }

    /// Makes room for every later answer.
    pub fn ready(&mut self) -> Result<(), NoMemory>
        ensures reached { IsKept self.old.reached self.new.reached }
        ensures fault { self.new.fault ≡ self.old.fault }
        ensures room { OnOk result (HasRoom self.new.reached) }
    {
        self.reading.reserve()
    }

    /// The piece to read, at an address and of a length from 1 to 256; none where the copy is complete or has a fault.
    pub fn next(&self) -> Option<(u64, u16)>
        ensures piece { result ≡ wanted (continued self.now []) }
        ensures follows { (parts : List Part) (answers : List (Result (List ℕ) ℕ)) → Follows parts answers self.now → result ≡ wanted (copies.progress parts answers) }
    {
        match self.fault {
            Some(_) => None,
            None => self.reading.next(),
        }
    }

    /// Takes the answer of the read of the piece. After `ready` it takes no memory.
    pub fn feed(&mut self, got: Result<&[u8], Fault>) -> Result<(), NoMemory>
        requires { Answers (wanted (continued self.old [])) (answer_of got) }
        ensures goes_on { OnOk result ((later : List (Result (List ℕ) ℕ)) → continued self.new later ≡ continued self.old (answer_of got.entry ∷ later)) }
        ensures follows { (parts : List Part) (answers : List (Result (List ℕ) ℕ)) → Follows parts answers self.old → OnOk result (Follows parts (answers ++ answer_of got.entry ∷ []) self.new) }
        ensures reached { OnErr result (IsKept self.old.reached self.new.reached) }
        ensures fault { OnErr result (self.new.fault ≡ self.old.fault) }
        ensures room { HasRoom self.old.reached → IsOk result }
        ensures ready { HasRoom self.old.reached → HasRoom self.new.reached }
    {
        match got {
            Ok(bytes) => self.fault = self.reading.take(bytes)?,
            Err(_) => self.fault = Some(Errno::EFAULT),
        }
        Ok(())
    }

    /// The texts, in the plan's order, or the fault of the first that has one. The capture can be started anew.
    pub fn take_copy(&mut self) -> Result<ArgCopy, Errno>
        requires { wanted (continued self.old []) ≡ None }
        ensures copy { Finishes (continued self.old []) result }
        ensures follows { (parts : List Part) (answers : List (Result (List ℕ) ℕ)) → Follows parts answers self.old → Finishes (copies.progress parts answers) result }
    {
        match self.fault {
            Some(fault) => Err(fault),
            None => Ok(ArgCopy {
                texts: Sequence::new(self.reading.take_texts()),
            }),
        }
    }

    /// The texts, in the plan's order, or the fault of the first that has one.
    pub fn finish(self) -> Result<ArgCopy, Errno>
        requires { wanted (continued self []) ≡ None }
        ensures copy { Finishes (continued self []) result }
        ensures follows { (parts : List Part) (answers : List (Result (List ℕ) ℕ)) → Follows parts answers self → Finishes (copies.progress parts answers) result }
    {
        let mut capture = self;
        capture.take_copy()
    }
}
