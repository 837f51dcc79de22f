//! What is kept for each signal (signal(7)).

ghost use Rattle.std.specs.Prelude.{◌≡◌};
ghost use Rattle.tasks.specs.Sets.{with_signal};

use sys_abi::signals::{SIGKILL, SIGTERM, SIGUSR1, SIGUSR2};

/// A value for each signal that a task can get.
#[derive(Clone, Copy, PartialEq, Eq, Debug)]
pub struct BySignal<T> {
    pub kill: T,
    pub usr1: T,
    pub usr2: T,
    pub term: T,
}

impl<T: Copy> BySignal<T> {
    /// The same value for each.
    pub fn all(value: T) -> BySignal<T>
        ensures { result ≡ record { kill = value; usr1 = value; usr2 = value; term = value } }
    {
        BySignal {
            kill: value,
            usr1: value,
            usr2: value,
            term: value,
        }
    }

    /// Sets the value for a signal; a number of no signal sets nothing.
    pub fn set(&mut self, sig: u8, value: T)
        ensures { self.new ≡ with_signal self.old sig value }
    {
        match sig {
            SIGKILL => self.kill = value,
            SIGUSR1 => self.usr1 = value,
            SIGUSR2 => self.usr2 = value,
            SIGTERM => self.term = value,
            _ => {}
        }
    }
}
