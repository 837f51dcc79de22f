//! Numbers of signals, as they are on x86-64 (signal(7)).

/// The signal that no handler can catch.
pub const SIGKILL: u8 = 9;

/// The first signal for a program's own use.
pub const SIGUSR1: u8 = 10;

/// The second signal for a program's own use.
pub const SIGUSR2: u8 = 12;

/// The signal that asks a program to end.
pub const SIGTERM: u8 = 15;
