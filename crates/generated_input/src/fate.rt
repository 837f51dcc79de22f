//! The outcome of a generated call.

ghost use Rattle.std.specs.Prelude.{◌≡◌};
ghost use Rattle.generated_input.specs.GeneratedScript.{fate_of};

/// The outcome of a generated call.
#[derive(Clone, Copy, PartialEq, Eq, Debug)]
pub enum Fate {
    /// It makes the device 1:3, and a switch's rule grants it.
    Granted,
    /// It would make the device 1:1, and the policy's own rule denies it.
    Denied,
    /// It makes a FIFO, which no rule grants, and runs natively.
    Passed,
    /// It is sysinfo(2), and a switch's rule grants it: the worker writes the figures into its task's memory.
    Informed,
    /// It is as a granted one, but its task is killed when the worker has received the notification.
    Killed,
}

/// The fate of call i, counted from 0.
pub(crate) fn fate_of(from: u64, i: u32) -> Fate
    ensures { result ≡ fate_of from i }
{
    match (from % 5 + u64::from(i)) % 5 {
        0 => Fate::Granted,
        1 => Fate::Denied,
        2 => Fate::Passed,
        3 => Fate::Informed,
        _ => Fate::Killed,
    }
}
