//! What a report has behind its journal, compared with a text as it is written.

ghost use Rattle.std.specs.Prelude.{◌≡◌, ◌≢◌, ◌<◌, ◌≤◌, ◌↔◌, true, false, IfOk, IfSome, IsTrue, None, Some, length, slice_get, take};
ghost use Rattle.std.specs.Option.{ForSome};
ghost use Rattle.audit_log.specs.Tables.{TellsTables};
ghost use Rattle.io_edge.specs.SinkState.{Writes};
ghost use Rattle.audit_check.specs.Pass.{Compares, ends, faults_of, parted, told};
ghost use Rattle.audit_check.specs.Reading.{rest_of};

use audit_log::error::ReportError;
use audit_log::report::write_rest_by;
use audit_log::tables::Tables;
use hist_model::history::History;
use hist_model::policy::Policy;
use io_edge::fault::Failed;
use io_edge::sink::Sink;
use std::alloc::Global;
use sys_abi::memory::NoMemory;

/// A sink that compares what it takes with a text, and fails at the first byte that isn't the text's.
#[derive(Drop)]
struct Compare<'a> {
    text: &'a [u8],
    /// How many of the text's bytes were written.
    same: usize,
    /// The byte that was written in place of the next one.
    other: Option<u8>,
    ghost within: { same ≤ length text.now },
    ghost differs: { ForSome other (λ b. slice_get text.now same ≡ Some b → ⊥) },
}

/// Whether a text has this byte at a place.
fn has_at(text: &[u8], place: usize, byte: u8) -> bool
    ensures { IsTrue result ↔ (slice_get text.now place ≡ Some byte) }
{
    match text.get(place) {
        Some(other) => *other == byte,
        None => false,
    }
}

/// How many bytes of a piece stand at the front of a text.
#[tactic(auto, using(crate::proofs::Compared::same_more, crate::proofs::Compared::inside_same))]
fn common(text: &[u8], piece: &[u8]) -> usize
    ensures within { result ≤ length piece.now }
    ensures inside { result ≤ length text.now }
    ensures same { take result text.now ≡ take result piece.now }
    ensures differ { result < length piece.now → slice_get text.now result ≢ slice_get piece.now result }
{
    // Of a report that is right, each piece stands there whole.
    if text.starts_with(piece) {
        return piece.len();
    }
    for (place, byte) in piece.iter().enumerate() {
        if !has_at(text, place, *byte) {
            return place;
        }
    }
    piece.len()
}

/// How many lines end in a text.
fn ends(text: &[u8]) -> usize
    ensures { result ≡ ends text.now }
{
    text.iter().filter(|byte| **byte == b'\n').count()
}

impl Compare<'_> {
    /// Whether the whole text was written and nothing else, or how many lines end in what was written of it.
    fn parted(&self) -> Option<usize>
        ensures parts { result ≡ parted self.now.text.now self.now.same self.now.other }
        ensures few { IfSome result (λ n. n ≤ length self.now.text.now) }
    {
        if self.other.is_none() && self.same == self.text.len() {
            None
        } else {
            Some(ends(&self.text[..self.same]))
        }
    }
}

impl Sink for Compare<'_> {
    ghost use Rattle.io_edge.specs.SinkState.{SinkState};

    ghost state = { λ c. record { tells = true; taken = told c.text.now c.same c.other; faults = faults_of c.other; pending = false } };

    fn write(&mut self, piece: &[u8]) -> Result<(), Failed> {
        if self.other.is_some() {
            return Err(Failed);
        }
        let count = common(&self.text[self.same..], piece);
        self.same += count;
        if count == piece.len() {
            return Ok(());
        }
        self.other = Some(piece[count]);
        Err(Failed)
    }

    fn flush(&mut self) -> Result<(), Failed> {
        Ok(())
    }
}

/// Whether a text is what the report of a history has behind its journal, by the history's tables, or how many lines end in what they
/// have in common.
pub(crate) fn compared(
    alloc: Global,
    policy: &Policy,
    history: &History,
    tables: &Tables,
    text: &[u8],
) -> Result<Option<usize>, NoMemory>
    requires { TellsTables policy.now.rules history.now.events tables.now }
    ensures compares { IfOk result (λ parts. Compares (rest_of policy.now history.now.events) text.now parts) }
    ensures few { IfOk result (λ parts. IfSome parts (λ n. n ≤ length text.now)) }
{
    let mut sink = Compare {
        text,
        same: 0,
        other: None,
    };
    match write_rest_by(alloc, policy, history, tables, &mut sink) {
        Err(ReportError::NoMemory) => Err(NoMemory),
        Err(ReportError::WriteFault) => Ok(sink.parted()),
        Ok(()) => Ok(sink.parted()),
    }
}
