//! Numbers of system calls, as they are on x86-64.

ghost use Rattle.std.specs.Prelude.{◌≡◌, IfSome};
ghost use Rattle.std.specs.Option.{option_copied};
ghost use Rattle.sys_abi.specs.Calls.{call_name_of, call_number_of};

use crate::names::{Row, name_of, number_of};

/// close(2).
pub const CLOSE: i32 = 3;

/// getpid(2).
pub const GETPID: i32 = 39;

/// sysinfo(2).
pub const SYSINFO: i32 = 99;

/// mknod(2).
pub const MKNOD: i32 = 133;

/// mount(2).
pub const MOUNT: i32 = 165;

/// setxattr(2).
pub const SETXATTR: i32 = 188;

/// openat(2).
pub const OPENAT: i32 = 257;

/// mknodat(2).
pub const MKNODAT: i32 = 259;

/// The calls that have a name here, by number.
const NAMES: [Row; 8] = [
    (CLOSE as u16, "close"),
    (GETPID as u16, "getpid"),
    (SYSINFO as u16, "sysinfo"),
    (MKNOD as u16, "mknod"),
    (MOUNT as u16, "mount"),
    (SETXATTR as u16, "setxattr"),
    (OPENAT as u16, "openat"),
    (MKNODAT as u16, "mknodat"),
];

/// The number of the call with this name, if it is one of those above.
pub fn call_number(name: &[u8]) -> Option<i32>
    ensures numbered { result ≡ call_number_of name.now }
    ensures back { IfSome result (λ nr. call_name_of nr ≡ Some name.now) }
{
    let number = number_of(&NAMES, name)?;
    Some(i32::from(number))
}

/// The name of the call with this number, if it is one of those above. Any number may be asked for, also one that
/// is no call at all.
pub fn call_name(nr: i32) -> Option<&'static str>
    ensures named { option_copied result ≡ call_name_of nr }
    ensures back { IfSome result (λ text. call_number_of text.now ≡ Some nr) }
{
    match u16::try_from(nr) {
        Ok(number) => name_of(&NAMES, number),
        Err(_) => None,
    }
}
