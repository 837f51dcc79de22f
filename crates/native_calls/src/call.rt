//! Native calls whose arguments were read.

ghost use Rattle.std.specs.Prelude.{◌≡◌, ℕ, ◌%◌, ◌^◌, List, Some, IfOk};
ghost use Rattle.hist_model.specs.Copies.{plan, copy_of};
ghost use Rattle.hist_model.specs.Memory.{mapped_byte};
ghost use Rattle.hist_model.specs.declared.event.Event.{Event};
ghost use Rattle.hist_model.specs.declared.script.Script.{Script};
ghost use Rattle.history_frames.specs.Ordinals.{group_of};
ghost use Rattle.task_groups.specs.Groups.{IsLive};
ghost use Rattle.task_groups.specs.Stands.{StandsFor};
ghost use Rattle.native_calls.specs.Prepared.{requested};

use crate::copies::copy_arguments;
use arg_capture::Capture;
use emu_request::{base_dirfd, request};
use hist_model::request::Request;
use sys_abi::calls::{CLOSE, GETPID, SYSINFO};
use sys_abi::errno::Errno;
use sys_abi::memory::NoMemory;
use task_groups::Groups;

/// A native call with its arguments read.
#[derive(Debug, Drop)]
pub enum NativeCall {
    /// close(2) of a number.
    Close {
        number: u32,
    },
    /// getpid(2).
    GetPid,
    /// sysinfo(2), with the address of its answer.
    Sysinfo {
        addr: u64,
    },
    /// A call with paths: the descriptor from which relative ones go, and what it asks for, or the fault of its arguments.
    Request {
        dirfd: i32,
        request: Result<Request, Errno>,
    },
    /// A call that isn't known here.
    Unknown,
}

/// The low 32 bits of an argument.
fn low_32(argument: u64) -> u32
    ensures { result ≡ argument % 2 ^ 32 }
{
    (argument % 0x1_0000_0000) as u32
}

/// What a call with paths asks for, with its arguments as they are in the memory of a group now; or the fault of their copy.
fn read_request(
    groups: &Groups,
    group: u32,
    nr: i32,
    args: &[u64; 6],
    capture: &mut Capture,
    piece: &mut Vec<u8>,
) -> Result<Result<Request, Errno>, NoMemory>
    requires { IsLive groups.now group }
    ensures { IfOk result (λ r. (S : Script) (K : List Event) (living handles : ℕ → ℕ) (g : ℕ) → StandsFor S K living handles groups.now → group_of K group ≡ Some g
        → r ≡ requested nr args.now (copy_of (mapped_byte S K g) (plan nr args.now))) }
{
    match copy_arguments(groups, group, nr, args, capture, piece)? {
        Ok(copy) => Ok(Ok(request(nr, args, copy))),
        Err(errno) => Ok(Err(errno)),
    }
}

impl NativeCall {
    ghost use Rattle.native_calls.specs.Prepared.{IsPrepared};

    /// The call of this number with these arguments, whose texts are read out of the memory of its caller's group as they are now, by pieces:
    /// a text that isn't mapped is EFAULT, one that doesn't end is its part's fault, and a value over 4096 bytes is E2BIG.
    pub fn prepare(
        groups: &Groups,
        group: u32,
        nr: i32,
        args: &[u64; 6],
        capture: &mut Capture,
        piece: &mut Vec<u8>,
    ) -> Result<NativeCall, NoMemory>
        requires { IsLive groups.now group }
        ensures { IfOk result (λ call. (S : Script) (K : List Event) (living handles : ℕ → ℕ) (g : ℕ) → StandsFor S K living handles groups.now → group_of K group ≡ Some g
            → IsPrepared S K g nr args.now call) }
    {
        match nr {
            CLOSE => Ok(NativeCall::Close {
                number: low_32(args[0]),
            }),
            GETPID => Ok(NativeCall::GetPid),
            SYSINFO => Ok(NativeCall::Sysinfo { addr: args[0] }),
            _ => match base_dirfd(nr, args) {
                Some(dirfd) => Ok(NativeCall::Request {
                    dirfd,
                    request: read_request(groups, group, nr, args, capture, piece)?,
                }),
                None => Ok(NativeCall::Unknown),
            },
        }
    }
}
