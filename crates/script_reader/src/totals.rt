//! What programs come to. A count that passes the greatest number of 64 bits stays there, far above every limit.

ghost use Rattle.std.specs.Prelude.{◌≡◌};
ghost use Rattle.hist_model.specs.Totals as definitions;
ghost use Rattle.script_reader.specs.Capped.{capped};

use hist_model::script::{Instr, Totals};

/// What no instructions come to.
pub const NOTHING: Totals = Totals {
    executed: 0,
    calls: 0,
    starts: 0,
    stored: 0,
    depth: 0,
};

/// What one instruction comes to that starts nothing, stores nothing and is no call.
const ONE: Totals = Totals {
    executed: 1,
    calls: 0,
    starts: 0,
    stored: 0,
    depth: 0,
};

/// The instruction that starts a program, and all that the program comes to.
fn one_started(program: Totals) -> Totals
    ensures { result ≡ capped (definitions.one_started program) }
{
    Totals {
        executed: program.executed.saturating_add(1),
        calls: program.calls,
        starts: program.starts.saturating_add(1),
        stored: program.stored,
        depth: program.depth.saturating_add(1),
    }
}

/// What the program at a place comes to.
fn totals_at(above: &[Totals], place: u32) -> Totals
    ensures { result ≡ definitions.totals_at above.now place }
{
    match above.get(place as usize) {
        Some(&totals) => totals,
        None => NOTHING,
    }
}

/// What one instruction adds, by what the programs above come to.
pub fn added_by(above: &[Totals], instr: &Instr) -> Totals
    ensures { result ≡ capped (definitions.added_by above.now instr.now) }
{
    match instr {
        Instr::Poke { bytes, .. } => Totals {
            stored: bytes.items().len() as u64,
            ..ONE
        },
        Instr::Fill { len, .. } => Totals {
            stored: *len as u64,
            ..ONE
        },
        Instr::Call { .. } => Totals { calls: 1, ..ONE },
        Instr::Spawn { program } => one_started(totals_at(above, *program)),
        Instr::Thread { program } => one_started(totals_at(above, *program)),
        _ => ONE,
    }
}

/// Counts are added, and of depths the greater one counts.
pub fn with_totals(sum: Totals, more: Totals) -> Totals
    ensures { result ≡ capped (definitions.with_totals sum more) }
{
    Totals {
        executed: sum.executed.saturating_add(more.executed),
        calls: sum.calls.saturating_add(more.calls),
        starts: sum.starts.saturating_add(more.starts),
        stored: sum.stored.saturating_add(more.stored),
        depth: sum.depth.max(more.depth),
    }
}

/// Whether an instruction is `exit`.
pub fn is_exit(instr: &Instr) -> bool
    ensures { result ≡ definitions.is_exit instr.now }
{
    matches!(instr, Instr::Exit)
}

/// The end of a program without `exit` is executed as one.
pub fn with_end(exited: bool, totals: Totals) -> Totals
    ensures { result ≡ capped (definitions.with_end exited totals) }
{
    if exited {
        totals
    } else {
        Totals {
            executed: totals.executed.saturating_add(1),
            ..totals
        }
    }
}

/// Whether a task of a program would do too much: more than 100000 executed instructions, 20000 calls, 4000 tasks started,
/// 64 MiB stored, or programs more than 64 deep.
pub fn are_too_many(totals: Totals) -> bool
    ensures { result ≡ definitions.are_too_many totals }
{
    totals.executed > 100_000
        || totals.calls > 20_000
        || totals.starts > 4000
        || totals.stored > 67_108_864
        || totals.depth > 64
}
