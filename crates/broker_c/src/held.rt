//! A sink in memory.

ghost use Rattle.std.specs.Prelude.{◌≡◌, ◌≤◌, nat_lt, vec_len};
ghost use Rattle.broker_c.specs.Held.{empty_sink, holding};

use io_edge::fault::Failed;
use io_edge::sink::Sink;
use std::alloc::Global;

/// A sink in memory, which grows with what it takes, up to so many bytes. It fails where there are more, or no memory for
/// them: of a piece that doesn't fit it takes the bytes that do, and none where there is no memory.
#[derive(Drop)]
pub(crate) struct HeldBytes {
    taken: Vec<u8>,
    // how many bytes it takes at most
    room: usize,
    faults: u64,
    ghost within: { vec_len taken ≤ room },
}

impl HeldBytes {
    /// A sink for at most so many bytes.
    pub(crate) fn new(alloc: Global, room: usize) -> HeldBytes
        ensures { ⟦<HeldBytes as Sink>⟧.state result ≡ empty_sink }
    {
        HeldBytes {
            taken: Vec::new(alloc),
            room,
            faults: 0,
        }
    }

    /// Whether a write failed.
    pub(crate) fn has_failed(&self) -> bool
        ensures { result ≡ nat_lt 0 (⟦<HeldBytes as Sink>⟧.state self.now).faults }
    {
        self.faults > 0
    }

    /// The bytes that it took.
    pub(crate) fn into_taken(self) -> Vec<u8>
        ensures { result.items ≡ (⟦<HeldBytes as Sink>⟧.state self).taken }
    {
        self.taken
    }
}

impl Sink for HeldBytes {
    ghost use Rattle.io_edge.specs.SinkState.{SinkState};

    ghost state = { λ s. holding s.taken.items s.faults };

    fn write(&mut self, piece: &[u8]) -> Result<(), Failed> {
        let fits = piece.len().min(self.room - self.taken.len());
        if self.taken.extend_from_slice(&piece[..fits]).is_err() || fits < piece.len() {
            self.faults = self.faults.saturating_add(1);
            return Err(Failed);
        }
        Ok(())
    }

    /// What was taken stands at once, so this does nothing.
    fn flush(&mut self) -> Result<(), Failed> {
        Ok(())
    }
}
