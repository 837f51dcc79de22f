//! Whole files.

ghost use Rattle.std.specs.Prelude.{◌≡◌, ℕ, ◌+◌, ◌-◌, ◌^◌, ◌<◌, ◌≤◌, ◌↔◌, true, [], length, drop, Some, None, IsSome, OnOk, OnErr, IfOk, IfSome, IsErrOf};
ghost use Rattle.io_edge.specs.Faults.{Rose};
ghost use Rattle.io_edge.specs.FileState.{ReadsPast, SameFiles};
ghost use Rattle.io_edge.specs.declared.whole.ReadAllError.TheVariants.{ReadFault, NoMemory};

use crate::fault::Failed;
use crate::files::Files;
use std::alloc::AllocError;
use thiserror::Error;

/// How many bytes one read asks for at most.
const PIECE: usize = 4096;

/// Why a file wasn't read whole.
#[derive(Clone, Copy, PartialEq, Eq, Debug, Error)]
pub enum ReadAllError {
    /// The source failed: it couldn't open the file, or a read of it.
    #[error("read fault")]
    ReadFault,
    /// The file has more bytes than the limit.
    #[error("too long")]
    TooLong,
    /// There was no memory for the bytes.
    #[error("no memory")]
    NoMemory,
}

impl From<Failed> for ReadAllError {
    ghost from_gives = { λ _ e. e ≡ ReadFault };

    fn from(_error: Failed) -> ReadAllError {
        ReadAllError::ReadFault
    }
}

impl From<AllocError> for ReadAllError {
    ghost from_gives = { λ _ e. e ≡ NoMemory };

    fn from(_error: AllocError) -> ReadAllError {
        ReadAllError::NoMemory
    }
}

/// Reads the file of this name to its end. `into` is emptied first: after `Ok` it is the whole file, and
/// after any error it is empty.
///
/// `ReadFault` comes only where the source's count of faults rose, and over a sound source exactly where
/// the name isn't there. `TooLong` comes exactly where `limit + 1` bytes were read, and no more are.
/// Where there is a current file afterwards, also after an error, it is the one of this name.
pub fn read_all<F: Files>(
    files: &mut F,
    name: &str,
    limit: u64,
    into: &mut Vec<u8>,
) -> Result<(), ReadAllError>
    requires { limit < 2 ^ 64 - 1 }
    ensures same { SameFiles (F.state files.old) (F.state files.new) }
    ensures whole { OnOk result ((F.state files.old).tells ≡ true
        → (F.state files.old).bytes name.now ≡ Some into.new.items) }
    ensures within { OnOk result (length into.new.items ≤ limit) }
    ensures counted { OnOk result ((F.state files.new).given ≡ length into.new.items) }
    ensures at_end { OnOk result ((F.state files.old).tells ≡ true → (F.state files.new).left ≡ []) }
    ensures opened { OnOk result ((F.state files.old).tells ≡ true
        → (F.state files.new).current ≡ Some name.now) }
    ensures named { (F.state files.old).tells ≡ true → IsSome (F.state files.new).current
        → (F.state files.new).current ≡ Some name.now }
    ensures stands { (F.state files.old).tells ≡ true → IsSome (F.state files.new).current
        → IfSome ((F.state files.old).bytes name.now)
        (λ bytes. (F.state files.new).left ≡ drop (F.state files.new).given bytes) }
    ensures cause { IsErrOf result ReadAllError.ReadFault
        → Rose (F.state files.old).faults (F.state files.new).faults }
    ensures absent { (F.state files.old).sound ≡ true
        → (IsErrOf result ReadAllError.ReadFault ↔ ((F.state files.old).bytes name.now ≡ None)) }
    ensures too_long { IsErrOf result ReadAllError.TooLong ↔ ((F.state files.new).given ≡ limit + 1) }
    ensures past { IsErrOf result ReadAllError.TooLong
        → ReadsPast limit (F.state files.old) name.now (F.state files.new) }
    ensures empty { OnErr result (into.new.items ≡ []) }
{
    into.clear();
    files.open(name)?;
    let outcome = read_rest(files, limit, into);
    if outcome.is_err() {
        into.clear();
    }
    outcome
}

/// Adds what is left of the current file to `into`.
fn read_rest<F: Files>(files: &mut F, limit: u64, into: &mut Vec<u8>) -> Result<(), ReadAllError>
    requires bounded { limit < 2 ^ 64 - 1 }
    requires opened { IsSome (F.state files.old).current }
    requires begins { (F.state files.old).given ≡ 0 }
    requires emptied { into.old.items ≡ [] }
    ensures same { SameFiles (F.state files.old) (F.state files.new) }
    ensures whole { OnOk result ((F.state files.old).tells ≡ true
        → (F.state files.old).left ≡ into.new.items) }
    ensures within { OnOk result (length into.new.items ≤ limit) }
    ensures counted { OnOk result ((F.state files.new).given ≡ length into.new.items) }
    ensures at_end { OnOk result ((F.state files.old).tells ≡ true → (F.state files.new).left ≡ []) }
    ensures current { (F.state files.new).current ≡ (F.state files.old).current }
    ensures stands { (F.state files.old).tells ≡ true
        → (F.state files.new).left ≡ drop (F.state files.new).given (F.state files.old).left }
    ensures cause { IsErrOf result ReadAllError.ReadFault
        → Rose (F.state files.old).faults (F.state files.new).faults }
    ensures exact { (F.state files.old).sound ≡ true → IsErrOf result ReadAllError.ReadFault → ⊥ }
    ensures too_long { IsErrOf result ReadAllError.TooLong ↔ ((F.state files.new).given ≡ limit + 1) }
    ensures longer { IsErrOf result ReadAllError.TooLong → (F.state files.old).tells ≡ true
        → limit < length (F.state files.old).left }
{
    let mut buffer = [0; PIECE];
    let mut total = 0;
    'pieces: while total <= limit {
        let wanted = (limit + 1 - total).min(PIECE as u64) as usize;
        let count = files.read(&mut buffer[..wanted])?;
        if count == 0 {
            return Ok(());
        }
        total += count as u64;
        if total <= limit {
            into.extend_from_slice(&buffer[..count])?;
        }
    }
    Err(ReadAllError::TooLong)
}
