//! The flags of SECCOMP_IOCTL_NOTIF_SEND and of SECCOMP_IOCTL_NOTIF_ADDFD, as sets. Contracts see a set as the number of its
//! bits, as those of `sys_abi::flags`.

ghost use Rattle.std.specs.Prelude.{⊤, [], ◌∷◌, codes};

use bitflags::{Flag, Flags};
use sys_abi::wire::{
    SECCOMP_ADDFD_FLAG_SEND, SECCOMP_ADDFD_FLAG_SETFD, SECCOMP_USER_NOTIF_FLAG_CONTINUE,
};

/// What an answer says beside a value and an error.
#[derive(Clone, Copy, PartialEq, Eq, Debug)]
pub struct ResponseFlags(u32);

impl ResponseFlags {
    /// The call runs natively.
    pub const CONTINUE: ResponseFlags = ResponseFlags(SECCOMP_USER_NOTIF_FLAG_CONTINUE);

    /// Each of them, with its name.
    pub const FLAGS: &'static [Flag<ResponseFlags>] = &[Flag {
        name: "CONTINUE",
        value: ResponseFlags::CONTINUE,
    }];
}

impl Flags for ResponseFlags {
    type Bits = u32;

    ghost exact = { ⊤ };

    ghost table = { (codes "CONTINUE", 1) ∷ [] };

    ghost set_of = { λ s. s.0 };

    fn flags<'a>() -> &'a [Flag<ResponseFlags>] {
        ResponseFlags::FLAGS
    }

    fn bits(&self) -> u32 {
        self.0
    }

    fn from_bits_retain(bits: u32) -> ResponseFlags {
        ResponseFlags(bits)
    }
}

/// What is asked beside a descriptor.
#[derive(Clone, Copy, PartialEq, Eq, Debug)]
pub struct AddfdFlags(u32);

impl AddfdFlags {
    /// The descriptor gets the number that the request names.
    pub const SETFD: AddfdFlags = AddfdFlags(SECCOMP_ADDFD_FLAG_SETFD);

    /// The call is answered by the installation, and returns the descriptor's number.
    pub const SEND: AddfdFlags = AddfdFlags(SECCOMP_ADDFD_FLAG_SEND);

    /// Each of them, with its name.
    pub const FLAGS: &'static [Flag<AddfdFlags>] = &[
        Flag {
            name: "SETFD",
            value: AddfdFlags::SETFD,
        },
        Flag {
            name: "SEND",
            value: AddfdFlags::SEND,
        },
    ];
}

impl Flags for AddfdFlags {
    type Bits = u32;

    ghost exact = { ⊤ };

    ghost table = { (codes "SETFD", 1) ∷ (codes "SEND", 2) ∷ [] };

    ghost set_of = { λ s. s.0 };

    fn flags<'a>() -> &'a [Flag<AddfdFlags>] {
        AddfdFlags::FLAGS
    }

    fn bits(&self) -> u32 {
        self.0
    }

    fn from_bits_retain(bits: u32) -> AddfdFlags {
        AddfdFlags(bits)
    }
}
