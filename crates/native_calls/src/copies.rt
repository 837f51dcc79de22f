//! The copy of a call's arguments, at one moment.

ghost use Rattle.std.specs.Prelude.{◌≡◌, ◌+◌, ◌≤◌, ℕ, ℤ, List, [], Ok, Some, length, IfOk, OnOk};
ghost use Rattle.hist_model.specs.Copies as copies;
ghost use Rattle.hist_model.specs.Copies.{wanted, copy_of};
ghost use Rattle.hist_model.specs.Memory.{mapped_byte};
ghost use Rattle.hist_model.specs.declared.event.Event.{Event};
ghost use Rattle.hist_model.specs.declared.script.Script.{Script};
ghost use Rattle.history_frames.specs.Ordinals.{group_of};
ghost use Rattle.arg_capture.specs.Captures.{continued, answer_of, Answers};
ghost use Rattle.task_groups.specs.Groups.{IsLive};
ghost use Rattle.task_groups.specs.Stands.{StandsFor};
ghost use Rattle.native_calls.specs.Copied.{texts_of, HasRead};

use arg_capture::{Capture, Plan};
use hist_model::request::{ArgCopy, Fault};
use sys_abi::errno::Errno;
use sys_abi::memory::{NoMemory, OrNoMemory};
use task_groups::Groups;

/// A copy is made of at most so many pieces: four texts of 4096 bytes, read byte by byte.
const MOST_PIECES: u32 = 16384;

/// The bytes that were read for a piece of a length. Where there are none that is a fault.
fn bytes_of(piece: &[u8], len: u16) -> Result<&[u8], Fault>
    ensures fits { (addr : ℕ) → Answers (Some (addr, len)) (answer_of result) }
    ensures same { 1 ≤ length piece.now → length piece.now ≤ len → answer_of result ≡ Ok piece.now }
{
    if piece.is_empty() || piece.len() > usize::from(len) {
        return Err(Fault);
    }
    Ok(piece)
}

/// Reads a piece of the memory of a group, and feeds it to the capture of a call's arguments.
fn read_piece(
    groups: &Groups,
    group: u32,
    addr: u64,
    len: u16,
    capture: &mut Capture,
    piece: &mut Vec<u8>,
) -> Result<(), NoMemory>
    requires live { IsLive groups.now group }
    requires wanted { wanted (continued capture.old []) ≡ Some (addr, len) }
    ensures { (nr : ℤ) (args : List ℕ) (count : ℕ) → HasRead groups.now group nr args count capture.old → OnOk result (HasRead groups.now group nr args (count + 1) capture.new) }
{
    match groups.read(group, addr, len, piece) {
        Ok(()) => capture.feed(bytes_of(piece, len)),
        Err(OrNoMemory::Refused(fault)) => capture.feed(Err(fault)),
        Err(OrNoMemory::NoMemory) => Err(NoMemory),
    }
}

/// The texts of a call's plan as they are in the memory of a group now, in order; or the fault of the first that has one.
pub fn copy_arguments(
    groups: &Groups,
    group: u32,
    nr: i32,
    args: &[u64; 6],
    capture: &mut Capture,
    piece: &mut Vec<u8>,
) -> Result<Result<ArgCopy, Errno>, NoMemory>
    requires { IsLive groups.now group }
    ensures { IfOk result (λ r. (S : Script) (K : List Event) (living handles : ℕ → ℕ) (g : ℕ) → StandsFor S K living handles groups.now → group_of K group ≡ Some g
        → texts_of r ≡ copy_of (mapped_byte S K g) (copies.plan nr args.now)) }
{
    capture.ready_for_any()?;
    capture.start(Plan::of(nr, args));
    for _ in 0..MOST_PIECES {
        let Some((addr, len)) = capture.next() else {
            break;
        };
        read_piece(groups, group, addr, len, capture, piece)?;
    }
    Ok(capture.take_copy())
}
