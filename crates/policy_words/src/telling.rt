//! The words that tell something of policies for all calls. Each makes a text, whose ending is the status.

ghost use Rattle.std.specs.Prelude.{◌≡◌, OnOk};
ghost use Rattle.std.specs.Option.{option_copied};
ghost use Rattle.audit_log.specs.Written.{Wrote};
ghost use Rattle.program_files.specs.Printed.{Printed, status_of};
ghost use Rattle.program_files.specs.Refusals.{Stands};
ghost use Rattle.policy_words.specs.Tellings.{ClaimsEnds, CompareEnds, IsPrinted, LintEnds, filters_of, status_of_ending};

use audit_log::error::ReportError;
use hist_model::script::{FilterLine, Script};
use hist_model::text::Sequence;
use io_edge::files::Files;
use io_edge::sink::Sink;
use policy_classes::ending::{Ending, Told};
use program_files::inputs::{
    read_claims, read_named_script, read_policies, read_policy, read_policy_bytes,
};
use program_files::status::Status;
use std::alloc::Global;

/// Writes a text.
fn write_text<O: Sink>(text: &[u8], out: &mut O) -> Result<(), ReportError>
    ensures { Wrote (O.state out.old) text.now result (O.state out.new) }
{
    out.write(text)?;
    Ok(())
}

/// Writes a text, and flushes it.
#[tactic(auto, using(program_files::proofs::Printing::flushed))]
fn write_flushed<O: Sink>(text: &[u8], out: &mut O) -> Result<(), ReportError>
    ensures wrote { Wrote (O.state out.old) text.now result (O.state out.new) }
    ensures stands { OnOk result (Stands (O.state out.new)) }
{
    write_text(text, out)?;
    out.flush()?;
    Ok(())
}

/// Prints a text.
#[tactic(auto, using(program_files::proofs::Printing::printed_whole, program_files::proofs::Printing::printed_part))]
fn print_text<O: Sink>(text: &[u8], out: &mut O) -> Result<(), Status>
    ensures { Printed text.now (O.state out.old) (O.state out.new) result }
{
    write_flushed(text, out)?;
    Ok(())
}

/// The status of an ending.
fn ended(ending: Ending) -> Result<(), Status>
    ensures { status_of result ≡ status_of_ending ending }
{
    match ending {
        Ending::Alike => Ok(()),
        Ending::Otherwise => Err(Status::Otherwise),
        Ending::Undecided => Err(Status::Undecided),
    }
}

/// Prints what is told, and answers the status of its ending.
#[tactic(auto, using(crate::proofs::Tellings::all_told, crate::proofs::Tellings::part_told))]
pub fn tell<O: Sink>(told: &Told, out: &mut O) -> Result<(), Status>
    ensures { IsPrinted told.now (O.state out.old) (O.state out.new) (status_of result) }
{
    print_text(told.text.items(), out)?;
    ended(told.ending)
}

/// The filters of a script, if there is one.
fn filters_of(script: &Option<Script>) -> Option<&Sequence<FilterLine>>
    ensures { option_copied result ≡ filters_of script.now }
{
    match script {
        Some(script) => Some(&script.filters),
        None => None,
    }
}

/// Compares the policies of two files, of which the second would take the first one's place, and prints what is told of them. Where a
/// script is named, its filters are asked which calls they notify.
#[tactic(auto, using(crate::proofs::Tellings::policies_stop, crate::proofs::Tellings::script_stops))]
pub fn compare_files<F: Files, O: Sink>(
    alloc: Global,
    files: &mut F,
    old: &str,
    new: &str,
    script: Option<&str>,
    out: &mut O,
) -> Result<(), Status>
    ensures { CompareEnds (F.state files.old) (F.state files.new) (O.state out.old) (O.state out.new) old.now new.now (option_copied script.entry) (status_of result) }
{
    let (old, new) = read_policies(alloc, files, old, new)?;
    let script = read_named_script(alloc, files, script)?;
    let told = policy_compare::compare(alloc, &old, &new, filters_of(&script))?;
    tell(&told, out)
}

/// Checks the claims of one file about the policy of another, and prints what is told of them.
#[tactic(auto, using(crate::proofs::Tellings::policy_stops, crate::proofs::Tellings::claims_stop))]
pub fn check_claims<F: Files, O: Sink>(
    alloc: Global,
    files: &mut F,
    policy: &str,
    claims: &str,
    out: &mut O,
) -> Result<(), Status>
    ensures { ClaimsEnds (F.state files.old) (F.state files.new) (O.state out.old) (O.state out.new) policy.now claims.now (status_of result) }
{
    let policy = read_policy(alloc, files, policy)?;
    let claims = read_claims(alloc, files, claims)?;
    let told = policy_claims::check(alloc, &policy, &claims)?;
    tell(&told, out)
}

/// Finds what is likely a mistake in the policy of a file, and prints what is told of it.
#[tactic(auto, using(crate::proofs::Tellings::bytes_stop))]
pub fn lint_file<F: Files, O: Sink>(
    alloc: Global,
    files: &mut F,
    policy: &str,
    out: &mut O,
) -> Result<(), Status>
    ensures { LintEnds (F.state files.old) (F.state files.new) (O.state out.old) (O.state out.new) policy.now (status_of result) }
{
    let bytes = read_policy_bytes(alloc, files, policy)?;
    let told = policy_lint::lint(alloc, bytes.as_slice())?;
    tell(&told, out)
}
