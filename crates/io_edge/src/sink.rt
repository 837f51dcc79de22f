//! Sinks.

ghost use Rattle.io_edge.specs.SinkState.{Flushes, SinkState, Writes};

use crate::fault::Failed;

/// A place for output.
///
/// Contracts see the bytes taken, where the sink tells them, a count of faults, which never falls, and
/// whether something that was taken may not stand yet where it belongs.
pub trait Sink {
    /// What is known of the sink.
    ghost state: { Self → SinkState };

    /// Takes the whole piece, or answers `Failed` after a prefix of it. `Failed` comes only where the
    /// count of faults rose in this call; a count at 2^64 - 1 counts as risen.
    fn write(&mut self, piece: &[u8]) -> Result<(), Failed>
        ensures { Writes (state self.old) piece.now result (state self.new) };

    /// How many bytes of whole lines are gathered before they are written: a writer of lines writes as soon as it has as many,
    /// and what is left at the end. They are 4 KiB; with 1 each line is a write of its own.
    fn gathers(&self) -> usize {
        4096
    }

    /// Makes sure that everything taken is where it belongs. `Failed` comes only if the count of
    /// faults rose in this call, as for `write`.
    fn flush(&mut self) -> Result<(), Failed>
        ensures { Flushes (state self.old) result (state self.new) };
}
