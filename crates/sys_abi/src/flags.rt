//! Flags that calls take, as sets.
//!
//! Contracts see a set as the number of its bits, also of bits that no flag has: `from_bits_retain` keeps these, and
//! `from_bits` is None where there are any.

ghost use Rattle.std.specs.Prelude.{⊤, [], ◌∷◌, codes};

use bitflags::{Flag, Flags};

/// The flags of mount(2) that are known here.
#[derive(Clone, Copy, PartialEq, Eq, Debug)]
pub struct MountFlags(u64);

impl MountFlags {
    /// Nothing may be written.
    pub const RDONLY: MountFlags = MountFlags(1);

    /// Set-user-ID and set-group-ID bits and file capabilities are ignored.
    pub const NOSUID: MountFlags = MountFlags(2);

    /// No device may be opened.
    pub const NODEV: MountFlags = MountFlags(4);

    /// No program may be executed.
    pub const NOEXEC: MountFlags = MountFlags(8);

    /// An existing mount is changed.
    pub const REMOUNT: MountFlags = MountFlags(32);

    /// What is at one place becomes visible at another.
    pub const BIND: MountFlags = MountFlags(4096);

    /// An existing mount is moved.
    pub const MOVE: MountFlags = MountFlags(8192);

    /// Each of them, with its name.
    pub const FLAGS: &'static [Flag<MountFlags>] = &[
        Flag {
            name: "RDONLY",
            value: MountFlags::RDONLY,
        },
        Flag {
            name: "NOSUID",
            value: MountFlags::NOSUID,
        },
        Flag {
            name: "NODEV",
            value: MountFlags::NODEV,
        },
        Flag {
            name: "NOEXEC",
            value: MountFlags::NOEXEC,
        },
        Flag {
            name: "REMOUNT",
            value: MountFlags::REMOUNT,
        },
        Flag {
            name: "BIND",
            value: MountFlags::BIND,
        },
        Flag {
            name: "MOVE",
            value: MountFlags::MOVE,
        },
    ];
}

impl Flags for MountFlags {
    type Bits = u64;

    ghost exact = { ⊤ };

    ghost table = { (codes "RDONLY", 1) ∷ (codes "NOSUID", 2) ∷ (codes "NODEV", 4) ∷ (codes "NOEXEC", 8) ∷ (codes "REMOUNT", 32) ∷ (codes "BIND", 4096) ∷ (codes "MOVE", 8192) ∷ [] };

    ghost set_of = { λ s. s.0 };

    fn flags<'a>() -> &'a [Flag<MountFlags>] {
        MountFlags::FLAGS
    }

    fn bits(&self) -> u64 {
        self.0
    }

    fn from_bits_retain(bits: u64) -> MountFlags {
        MountFlags(bits)
    }
}

/// The flags of setxattr(2).
#[derive(Clone, Copy, PartialEq, Eq, Debug)]
pub struct XattrFlags(u32);

impl XattrFlags {
    /// The attribute must not exist yet.
    pub const CREATE: XattrFlags = XattrFlags(1);

    /// The attribute must exist.
    pub const REPLACE: XattrFlags = XattrFlags(2);

    /// Each of them, with its name.
    pub const FLAGS: &'static [Flag<XattrFlags>] = &[
        Flag {
            name: "CREATE",
            value: XattrFlags::CREATE,
        },
        Flag {
            name: "REPLACE",
            value: XattrFlags::REPLACE,
        },
    ];
}

impl Flags for XattrFlags {
    type Bits = u32;

    ghost exact = { ⊤ };

    ghost table = { (codes "CREATE", 1) ∷ (codes "REPLACE", 2) ∷ [] };

    ghost set_of = { λ s. s.0 };

    fn flags<'a>() -> &'a [Flag<XattrFlags>] {
        XattrFlags::FLAGS
    }

    fn bits(&self) -> u32 {
        self.0
    }

    fn from_bits_retain(bits: u32) -> XattrFlags {
        XattrFlags(bits)
    }
}
