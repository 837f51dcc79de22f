//! The play of generated input.

ghost use Rattle.std.specs.Prelude.{◌≤◌};
ghost use Rattle.play_words.specs.Generated.{GeneratedIsMediated, StressEnds, generated_summary};
ghost use Rattle.program_files.specs.Printed.{Printed, status_of};

use crate::players::Player;
use crate::plays::print_played;
use crate::printing::Printout;
use generated_input::{generated_policy, generated_script};
use io_edge::sink::Sink;
use program_files::status::Status;
use std::alloc::Global;

/// What generated input plays is mediated.
fn generated_is_mediated(from: u64, count: u32)
    requires { count ≤ 4000 }
    ensures { GeneratedIsMediated from count }
{}

/// Plays generated input and prints the summary.
#[tactic(auto, using(program_files::proofs::Printing::ends_unplayed, crate::proofs::Ends::generated_printed))]
fn print_generated<P: Player, O: Sink>(
    player: &P,
    alloc: Global,
    from: u64,
    count: u32,
    out: &mut O,
) -> Result<(), Status>
    requires { count ≤ 4000 }
    ensures { Printed (generated_summary from count) (O.state out.old) (O.state out.new) result }
{
    let policy = generated_policy(alloc)?;
    let script = generated_script(alloc, from, count)?;
    print_played(player, alloc, Printout::Summary, policy, script, out)
}

/// Plays generated input, whose history is mediated, and prints the summary.
pub fn stress<P: Player, O: Sink>(
    player: &P,
    alloc: Global,
    from: u64,
    count: u32,
    out: &mut O,
) -> Result<(), Status>
    requires { count ≤ 4000 }
    ensures { StressEnds from count (O.state out.old) (O.state out.new) (status_of result) }
{
    generated_is_mediated(from, count);
    print_generated(player, alloc, from, count, out)
}
