//! A container that is asked in pieces of bytes.

ghost use Rattle.std.specs.Prelude.{◌≡◌, ◌++◌, ◌∷◌, [], false, IfOk, OnErr, OnOk, IsErrOf};
ghost use Rattle.audit_log.specs.declared.error.ReportError.TheVariants.{WriteFault};
ghost use Rattle.audit_log.specs.Written.{Wrote};
ghost use Rattle.io_edge.specs.Faults.{Rose};
ghost use Rattle.io_edge.specs.SinkState.{SinkState};
ghost use Rattle.step_session.specs.Judged.{IsStanding};
ghost use Rattle.step_session.specs.Lines.{has_end};
ghost use Rattle.step_session.specs.Owing.{Adds, Continues, Stops, TookFront, TookOwed};

use crate::begun::Begun;
use crate::judged::JudgedContainer;
use crate::lines::{answer_line, first_line, push_long};
use crate::origin::Origin;
use audit_log::error::ReportError;
use audit_log::line::LineBuffer;
use audit_log::part::write_line;
use hist_model::script::Script;
use io_edge::sink::Sink;
use std::alloc::Global;
use std::mem;
use sys_abi::memory::NoMemory;

/// How many bytes of answers are gathered before they are written.
const MOST_GATHERED: usize = 65536;

/// A container that is asked in pieces of bytes.
#[derive(Drop)]
pub(crate) struct Session {
    container: JudgedContainer,
    /// The line whose end isn't read yet.
    begun: Begun,
    /// The answers that aren't written yet.
    answers: LineBuffer,
}

impl Session {
    ghost use Rattle.step_session.specs.Owing.{Ends, IsFresh, IsLineAnswered, IsNew};

    /// A session with a container of this script, which is started.
    pub(crate) fn new(alloc: Global, origin: &Origin, script: Script) -> Result<Session, NoMemory>
        ensures { IfOk result (λ s. IsNew origin.now script s) }
    {
        Ok(Session {
            container: JudgedContainer::new(alloc, origin, script)?,
            begun: Begun::Line(Vec::new(alloc)),
            answers: LineBuffer::new(alloc),
        })
    }

    /// Answers a line of which these bytes were kept, and the others are these.
    fn answer_kept(
        &mut self,
        alloc: Global,
        origin: &Origin,
        mut kept: Vec<u8>,
        bytes: &[u8],
    ) -> Result<(), NoMemory>
        requires { IsStanding origin.now self.old.container }
        ensures answered { OnOk result (IsLineAnswered origin.now (kept.items ++ bytes.now) self.old.container self.old.answers self.new.container self.new.answers) }
        ensures standing { OnOk result (IsStanding origin.now self.new.container) }
        ensures begun { self.new.begun ≡ self.old.begun }
    {
        if kept.is_empty() {
            return answer_line(alloc, origin, &mut self.container, bytes, &mut self.answers);
        }
        kept.extend_from_slice(bytes)?;
        answer_line(
            alloc,
            origin,
            &mut self.container,
            kept.as_slice(),
            &mut self.answers,
        )
    }

    /// Answers the line that is begun, and that ends behind these bytes.
    fn end_line(&mut self, alloc: Global, origin: &Origin, bytes: &[u8]) -> Result<(), NoMemory>
        requires standing { IsStanding origin.now self.old.container }
        requires line { has_end bytes.now ≡ false }
        ensures continues { OnOk result ((out : SinkState) → Continues origin.now self.old out (bytes.now ++ 10 ∷ []) self.new out []) }
        ensures standing { OnOk result (IsStanding origin.now self.new.container) }
        ensures fresh { OnOk result (IsFresh self.new.begun) }
    {
        match mem::replace(&mut self.begun, Begun::Line(Vec::new(alloc))) {
            Begun::Line(kept) => self.answer_kept(alloc, origin, kept, bytes),
            Begun::TooLong => push_long(&mut self.answers),
        }
    }

    /// Answers the line that is begun, if there is one: it is the last one.
    fn end(&mut self, alloc: Global, origin: &Origin) -> Result<(), NoMemory>
        requires { IsStanding origin.now self.old.container }
        ensures { OnOk result (Ends origin.now self.old self.new) }
    {
        if self.begun.is_fresh() {
            return Ok(());
        }
        self.end_line(alloc, origin, &[])
    }

    /// Writes the answers that aren't written yet, in one write.
    fn write<O: Sink>(&mut self, out: &mut O) -> Result<(), ReportError>
        ensures wrote { Wrote (O.state out.old) self.old.answers result (O.state out.new) }
        ensures emptied { OnOk result (self.new ≡ record self.old { answers = [] }) }
    {
        write_line(&self.answers, out)?;
        self.answers.clear();
        Ok(())
    }

    /// Writes the answers that aren't written yet, and flushes them.
    pub(crate) fn hand_over<O: Sink>(&mut self, out: &mut O) -> Result<(), ReportError>
        ensures wrote { Wrote (O.state out.old) self.old.answers result (O.state out.new) }
        ensures emptied { OnOk result (self.new ≡ record self.old { answers = [] }) }
        ensures flushed { OnOk result ((O.state out.new).pending ≡ false) }
    {
        self.write(out)?;
        if out.flush().is_err() {
            return Err(ReportError::WriteFault);
        }
        Ok(())
    }

    /// Answers the line that ends behind these bytes, and writes the answers where many are gathered.
    fn take_line<O: Sink>(
        &mut self,
        alloc: Global,
        origin: &Origin,
        bytes: &[u8],
        out: &mut O,
    ) -> Result<(), ReportError>
        requires standing { IsStanding origin.now self.old.container }
        requires line { has_end bytes.now ≡ false }
        ensures continues { OnOk result (Continues origin.now self.old (O.state out.old) (bytes.now ++ 10 ∷ []) self.new (O.state out.new) []) }
        ensures standing { OnOk result (IsStanding origin.now self.new.container) }
        ensures stops { OnErr result (Stops origin.now self.old (O.state out.old) (bytes.now ++ 10 ∷ []) (O.state out.new)) }
        ensures cause { IsErrOf result WriteFault → Rose (O.state out.old).faults (O.state out.new).faults }
    {
        self.end_line(alloc, origin, bytes)?;
        if self.answers.bytes().len() > MOST_GATHERED {
            self.write(out)?;
        }
        Ok(())
    }

    /// Answers the lines that end in a piece of the requests. What stands behind the last of them is begun.
    pub(crate) fn take<O: Sink>(
        &mut self,
        alloc: Global,
        origin: &Origin,
        piece: &[u8],
        out: &mut O,
    ) -> Result<(), ReportError>
        requires { IsStanding origin.now self.old.container }
        ensures continues { OnOk result (Continues origin.now self.old (O.state out.old) piece.now self.new (O.state out.new) []) }
        ensures standing { OnOk result (IsStanding origin.now self.new.container) }
        ensures stops { OnErr result (Stops origin.now self.old (O.state out.old) piece.now (O.state out.new)) }
        ensures cause { IsErrOf result WriteFault → Rose (O.state out.old).faults (O.state out.new).faults }
    {
        let mut rest = piece;
        'lines: while let Some((line, behind)) = first_line(rest) {
            self.take_line(alloc, origin, line, out)?;
            rest = behind;
        }
        self.begun.go_on(rest)?;
        Ok(())
    }
    /// Answers the line that is begun, if there is one, and hands the last answers over.
    pub(crate) fn finish<O: Sink>(
        &mut self,
        alloc: Global,
        origin: &Origin,
        out: &mut O,
    ) -> Result<(), ReportError>
        requires { IsStanding origin.now self.old.container }
        ensures adds { Adds (O.state out.old) (O.state out.new) }
        ensures took { OnOk result (TookOwed origin.now self.old [] (O.state out.old) (O.state out.new)) }
        ensures flushed { OnOk result ((O.state out.new).pending ≡ false) }
        ensures front { OnErr result (TookFront origin.now self.old [] (O.state out.old) (O.state out.new)) }
        ensures cause { IsErrOf result WriteFault → Rose (O.state out.old).faults (O.state out.new).faults }
    {
        self.end(alloc, origin)?;
        self.hand_over(out)
    }
}
