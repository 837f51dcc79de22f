//! What stands behind the journal of a report: the calls, the audit and the summary.

ghost use Rattle.std.specs.Prelude.{◌≡◌, ◌++◌, IfOk, OnOk};
ghost use Rattle.hist_model.specs.Report.{summary};
ghost use Rattle.hist_model.specs.ReportAudit.{audit, judging_by};
ghost use Rattle.hist_model.specs.ReportCalls.{calls};
ghost use Rattle.audit_log.specs.Counts.{counts_of};
ghost use Rattle.audit_log.specs.Rest.{rest};
ghost use Rattle.audit_log.specs.Tables.{TellsTables};
ghost use Rattle.audit_log.specs.Written.{Wrote};

use crate::error::ReportError;
use crate::summary::Counts;
use crate::tables::Tables;
use hist_model::history::History;
use hist_model::policy::Policy;
use io_edge::sink::Sink;
use std::alloc::Global;

/// A history's report, with what its parts have in common.
#[derive(Drop)]
pub(crate) struct Report<'a> {
    pub(crate) policy: &'a Policy,
    pub(crate) history: &'a History,
    pub(crate) tables: &'a Tables,
    ghost told: { TellsTables policy.now.rules history.now.events tables.now },
}

impl Report<'_> {
    /// Writes the calls and the audit.
    fn write_listed<O: Sink>(&self, alloc: Global, out: &mut O) -> Result<(), ReportError>
        ensures { Wrote (O.state out.old) (calls self.now.history.now.events ++ audit (judging_by self.now.policy.now.rules) self.now.history.now.events) result (O.state out.new) }
    {
        self.write_calls(alloc, out)?;
        self.write_audit(alloc, out)
    }

    /// Writes the calls, the audit and the summary, and tells the counts in it.
    fn write_rest<O: Sink>(
        &self,
        alloc: Global,
        counts: &mut Counts,
        out: &mut O,
    ) -> Result<(), ReportError>
        ensures wrote { Wrote (O.state out.old) (rest (judging_by self.now.policy.now.rules) self.now.history.now.events) result (O.state out.new) }
        ensures counts { OnOk result (counts.new ≡ counts_of (judging_by self.now.policy.now.rules) self.now.history.now.events) }
    {
        self.write_listed(alloc, out)?;
        self.write_summary(alloc, counts, out)
    }
}

/// Writes what the report of a history has behind its journal: the calls, the audit and the summary.
///
/// The calls are `calls N` and a line for each of the N calls that a task entered, from the oldest on, with what came of it. The
/// audit is `audit N` and a line for each of the N sessions, from the oldest on, with the rule that decided, what was answered,
/// and whether that reached the call.
///
/// `WriteFault` comes only where the sink's count of faults rose. After an error the sink took a prefix of the text.
pub fn write_rest<O: Sink>(
    alloc: Global,
    policy: &Policy,
    history: &History,
    out: &mut O,
) -> Result<(), ReportError>
    ensures { Wrote (O.state out.old) (rest (judging_by policy.now.rules) history.now.events) result (O.state out.new) }
{
    let mut counts = Counts::none();
    write_rest_counting(alloc, policy, history, &mut counts, out)
}

/// Does what `write_rest` does, and tells the counts of the summary, where all was written.
pub fn write_rest_counting<O: Sink>(
    alloc: Global,
    policy: &Policy,
    history: &History,
    counts: &mut Counts,
    out: &mut O,
) -> Result<(), ReportError>
    ensures wrote { Wrote (O.state out.old) (rest (judging_by policy.now.rules) history.now.events) result (O.state out.new) }
    ensures counts { OnOk result (counts.new ≡ counts_of (judging_by policy.now.rules) history.now.events) }
{
    let tables = Tables::of(alloc, policy, history)?;
    let report = Report {
        policy,
        history,
        tables: &tables,
    };
    report.write_rest(alloc, counts, out)
}

/// Does what `write_rest` does, by the tables of the history that were made before.
pub fn write_rest_by<O: Sink>(
    alloc: Global,
    policy: &Policy,
    history: &History,
    tables: &Tables,
    out: &mut O,
) -> Result<(), ReportError>
    requires { TellsTables policy.now.rules history.now.events tables.now }
    ensures { Wrote (O.state out.old) (rest (judging_by policy.now.rules) history.now.events) result (O.state out.new) }
{
    let mut counts = Counts::none();
    let report = Report {
        policy,
        history,
        tables,
    };
    report.write_rest(alloc, &mut counts, out)
}

/// Writes the summary of a history: how many events, calls, listed calls and answers it has, and how many sessions came to what.
///
/// `WriteFault` comes only where the sink's count of faults rose. After an error the sink took a prefix of the summary.
pub fn write_summary<O: Sink>(
    alloc: Global,
    policy: &Policy,
    history: &History,
    out: &mut O,
) -> Result<(), ReportError>
    ensures { Wrote (O.state out.old) (summary (judging_by policy.now.rules) history.now.events) result (O.state out.new) }
{
    let tables = Tables::of(alloc, policy, history)?;
    let mut counts = Counts::none();
    let report = Report {
        policy,
        history,
        tables: &tables,
    };
    report.write_summary(alloc, &mut counts, out)
}
