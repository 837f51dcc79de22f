//! The serving of a file's requests.

ghost use Rattle.std.specs.Prelude.{◌≡◌, ◌<◌, ◌↔◌, true, false, length, None, IsSome, OnErr, OnOk, IsErrOf};
ghost use Rattle.io_edge.specs.Faults.{Rose};
ghost use Rattle.io_edge.specs.FileState.{Reads, SameFiles};
ghost use Rattle.step_session.specs.Judged.{IsStanding};
ghost use Rattle.step_session.specs.Owing.{Adds};
ghost use Rattle.step_session.specs.Serving.{PieceEnds, RestEnds, TookAll, TookPart};

use crate::fault::StepFault;
use crate::origin::Origin;
use crate::session::Session;
use hist_model::script::Script;
use io_edge::fault::Failed;
use io_edge::files::Files;
use io_edge::sink::Sink;
use std::alloc::Global;

/// How many bytes one read asks for at most.
const PIECE: usize = 65536;

/// Reads the next bytes of the requests. All that the sink took stands where it belongs, since whoever asks may wait for it
/// before they go on.
fn read_piece<F: Files, O: Sink>(
    files: &mut F,
    piece: &mut [u8],
    _answered: &O,
) -> Result<usize, Failed>
    requires opened { IsSome (F.state files.old).current }
    requires flushed { (O.state _answered.now).pending ≡ false }
    ensures { Reads (F.state files.old) piece.old result piece.new (F.state files.new) }
{
    files.read(piece)
}

/// Whether more of the requests may follow.
enum Next {
    /// A piece was read.
    Read,
    /// The requests are at their end, and all answers stand where they belong.
    Ended,
}

/// Hands the answers over, and then reads a piece and answers the lines that end in it.
fn answer_piece<F: Files, O: Sink>(
    session: &mut Session,
    alloc: Global,
    origin: &Origin,
    files: &mut F,
    piece: &mut [u8],
    out: &mut O,
) -> Result<Next, StepFault>
    requires opened { IsSome (F.state files.old).current }
    requires standing { IsStanding origin.now session.old.container }
    requires room { 0 < length piece.old }
    ensures { PieceEnds origin.now session.old (F.state files.old) (O.state out.old) result session.new (F.state files.new) (O.state out.new) }
{
    session.hand_over(out)?;
    let Ok(count) = read_piece(files, piece, out) else {
        return Err(StepFault::ReadFault);
    };
    if count == 0 {
        session.finish(alloc, origin, out)?;
        return Ok(Next::Ended);
    }
    session.take(alloc, origin, &piece[..count], out)?;
    Ok(Next::Read)
}

/// Answers what is left of the current file, of which a piece is read at a time.
fn answer_rest<F: Files, O: Sink>(
    session: &mut Session,
    alloc: Global,
    origin: &Origin,
    files: &mut F,
    piece: &mut [u8],
    out: &mut O,
) -> Result<(), StepFault>
    requires opened { IsSome (F.state files.old).current }
    requires standing { IsStanding origin.now session.old.container }
    requires room { 0 < length piece.old }
    ensures { RestEnds origin.now session.old (F.state files.old) (O.state out.old) result (F.state files.new) (O.state out.new) }
{
    'pieces: for _ in 0..u64::MAX {
        match answer_piece(session, alloc, origin, files, piece, out)? {
            Next::Read => {}
            Next::Ended => return Ok(()),
        }
    }
    Err(StepFault::NoMemory)
}

/// Answers the requests in the file of this name, one after another, until it ends. Everything that was answered is flushed before
/// more is read.
///
/// A line is answered as `line_answer` in `specs/Lines.antt` has it; one of more than 65,536 bytes is read over, and answered `refused long line`.
/// `ReadFault` comes only where the files' count of faults rose, and over sound files exactly where the name isn't there.
/// `WriteFault` comes only where the sink's count rose. After any error the sink has a prefix of the answers.
pub fn serve<F: Files, O: Sink>(
    alloc: Global,
    origin: &Origin,
    script: Script,
    files: &mut F,
    name: &str,
    out: &mut O,
) -> Result<(), StepFault>
    ensures same { SameFiles (F.state files.old) (F.state files.new) }
    ensures adds { Adds (O.state out.old) (O.state out.new) }
    ensures answered { OnOk result (TookAll origin.now script (F.state files.old) name.now (O.state out.old) (O.state out.new)) }
    ensures flushed { OnOk result ((O.state out.new).pending ≡ false) }
    ensures part { OnErr result (TookPart origin.now script (F.state files.old) name.now (O.state out.old) (O.state out.new)) }
    ensures read_fault { IsErrOf result StepFault.ReadFault → Rose (F.state files.old).faults (F.state files.new).faults }
    ensures absent { (F.state files.old).sound ≡ true → (IsErrOf result StepFault.ReadFault ↔ ((F.state files.old).bytes name.now ≡ None)) }
    ensures write_fault { IsErrOf result StepFault.WriteFault → Rose (O.state out.old).faults (O.state out.new).faults }
{
    if files.open(name).is_err() {
        return Err(StepFault::ReadFault);
    }
    let mut session = Session::new(alloc, origin, script)?;
    let mut piece = vec![in alloc; 0; PIECE]?;
    answer_rest(
        &mut session,
        alloc,
        origin,
        files,
        piece.as_mut_slice(),
        out,
    )
}
