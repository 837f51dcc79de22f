//! The structures of a receive and of an answer, and their tests.

ghost use Rattle.std.specs.Prelude.{◌≡◌, ◌↔◌, ◌==◌, if◌then◌else◌, true, false, Some, None, All, IsOk, IfErr};
ghost use Rattle.sys_abi.specs.Errnos.{einval};
ghost use Rattle.listener.specs.Answers.{may_be_sent, reading, response, back_of};

use crate::flags::ResponseFlags;
use bitflags::Flags;
use hist_model::event::Back;
use sys_abi::errno::Errno;
use sys_abi::wire::{Resp, SECCOMP_USER_NOTIF_FLAG_CONTINUE};

/// The smallest `error` of an answer: no error has a greater number.
const MIN_ERROR: i32 = -4095;

/// Tests the buffer of SECCOMP_IOCTL_NOTIF_RECV, which a caller has to hand over filled with zeros: EINVAL exactly where
/// it isn't.
pub fn check_recv(buf: &[u8; 80]) -> Result<(), Errno>
    ensures zeros { IsOk result ↔ All (λ b. b ≡ 0) buf.now }
    ensures refused { IfErr result (λ e. e ≡ einval) }
{
    if buf.iter().all(|byte| *byte == 0) {
        Ok(())
    } else {
        Err(Errno::EINVAL)
    }
}

/// Reads the structure of SECCOMP_IOCTL_NOTIF_SEND: EINVAL exactly for a flag that isn't defined, for
/// `SECCOMP_USER_NOTIF_FLAG_CONTINUE` with a value or an error, and for an `error` that is none of -4095 to 0.
pub fn parse_send(bytes: &[u8; 24]) -> Result<Resp, Errno>
    ensures { result ≡ reading bytes.now }
{
    let resp = Resp::from_bytes(bytes);
    if may_be_sent(&resp) {
        Ok(resp)
    } else {
        Err(Errno::EINVAL)
    }
}

/// Whether these flags have the call run natively; none where one of them isn't defined.
fn continues(flags: u32) -> Option<bool>
    ensures { result ≡ (if flags == 1 then Some true else (if flags == 0 then Some false else None)) }
{
    match ResponseFlags::from_bits(flags) {
        Some(flags) => Some(flags.contains(ResponseFlags::CONTINUE)),
        None => None,
    }
}

/// The answer is one that a call can get.
fn may_be_sent(resp: &Resp) -> bool
    ensures { result ≡ may_be_sent resp.now }
{
    let Resp {
        val,
        error,
        flags,
        ..
    } = *resp;
    match continues(flags) {
        Some(true) => val == 0 && error == 0,
        Some(false) => MIN_ERROR <= error && error <= 0,
        None => false,
    }
}

/// The structure with which a broker makes the call with this id return this.
pub fn response(id: u64, back: Back) -> Resp
    ensures { result ≡ response id back }
{
    let (val, error, flags) = match back {
        Back::Value(val) => (val, 0, 0),
        Back::Fail(errno) => (0, -i32::from(errno.number()), 0),
        Back::Continue => (0, 0, SECCOMP_USER_NOTIF_FLAG_CONTINUE),
    };
    Resp {
        id,
        val,
        error,
        flags,
    }
}

/// What a call returns when this structure answers it. The structure has passed the test of `parse_send`. The call runs natively
/// if the flag is set, fails if there is an error, and otherwise returns the value.
pub fn back_of(resp: &Resp) -> Back
    requires { may_be_sent resp.now ≡ true }
    ensures { result ≡ back_of resp.now }
{
    if ResponseFlags::from_bits_retain(resp.flags).contains(ResponseFlags::CONTINUE) {
        return Back::Continue;
    }
    match Errno::of(resp.error.unsigned_abs() as u16) {
        Some(errno) => Back::Fail(errno),
        None => Back::Value(resp.val),
    }
}
