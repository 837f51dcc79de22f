//! What a worker has read last.

ghost use Rattle.std.specs.Prelude.{◌≡◌, option_map};
ghost use Rattle.hist_model.specs.Look.{is_worker};
ghost use Rattle.model_kernel.specs.Kernels.{past};
ghost use Rattle.model_kernel.specs.Reads.{bytes_read, last_read, read_by};

use crate::kernel::Kernel;
use hist_model::event::{Actor, Event, What};

/// Whether an actor is a worker of this number.
fn is_worker(who: &Actor, worker: u8) -> bool
    ensures { result ≡ is_worker who.now worker }
{
    match who {
        Actor::Worker(number) => *number == worker,
        _ => false,
    }
}

/// What was read, where something was tried to be read.
fn bytes_read(what: &What) -> Option<&[u8]>
    ensures { option_map (λ bytes. bytes.now) result ≡ bytes_read what.now }
{
    match what {
        What::Read {
            answer: Ok(bytes),
            ..
        } => Some(bytes.items()),
        What::Read { answer: Err(_), .. } => Some(&[]),
        _ => None,
    }
}

/// What an event read that is a read of a worker.
fn read_by(event: &Event, worker: u8) -> Option<&[u8]>
    ensures { option_map (λ bytes. bytes.now) result ≡ read_by worker event.now }
{
    if is_worker(&event.who, worker) {
        bytes_read(&event.what)
    } else {
        None
    }
}

impl Kernel {
    /// The bytes that the newest read of a worker gave: none where it failed, and where the worker has read nothing. It looks
    /// back over the events, and is at once where the newest event is the read.
    #[tactic(auto, unfolding(crate::specs::Reads::last_read))]
    pub fn last_read(&self, worker: u8) -> &[u8]
        ensures { result.now ≡ last_read worker (past self.now) }
    {
        let mut events = self.history.events();
        while let Some((newest, older)) = events.split_last() {
            if let Some(bytes) = read_by(newest, worker) {
                return bytes;
            }
            events = older;
        }
        &[]
    }
}
