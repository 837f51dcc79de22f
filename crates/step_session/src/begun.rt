//! The front of a line whose end isn't read yet.

ghost use Rattle.std.specs.Prelude.{◌≡◌, ◌↔◌, false, IsTrue, OnOk};
ghost use Rattle.step_session.specs.Lines.{has_end};
ghost use Rattle.step_session.specs.Owing.{GoesOn, IsBounded, IsFresh};

use crate::lines::LONGEST;
use sys_abi::memory::NoMemory;

/// The front of a line whose end isn't read yet.
#[derive(Drop)]
pub(crate) enum Begun {
    /// Its bytes so far, 65,536 at most.
    Line(Vec<u8>),
    /// It has more bytes than a line may have. None of them is kept.
    TooLong,
}

impl Begun {
    /// Whether no line is begun.
    pub(crate) fn is_fresh(&self) -> bool
        ensures { IsTrue result ↔ IsFresh self.now }
    {
        match self {
            Begun::Line(kept) => kept.is_empty(),
            Begun::TooLong => false,
        }
    }

    /// Goes on with these bytes, among which the line doesn't end.
    pub(crate) fn go_on(&mut self, bytes: &[u8]) -> Result<(), NoMemory>
        requires { has_end bytes.now ≡ false }
        ensures goes_on { OnOk result (GoesOn self.old bytes.now self.new) }
        ensures bounded { OnOk result (IsBounded self.new) }
    {
        let Begun::Line(kept) = self else {
            return Ok(());
        };
        if kept.len() + bytes.len() > LONGEST {
            *self = Begun::TooLong;
            return Ok(());
        }
        kept.extend_from_slice(bytes)?;
        Ok(())
    }
}
