//! Small histories in which a worker is told what isn't so: of the call that it receives, of what it opens, checks and reads, and
//! of what it does.
//!
//! None is mediated. Each names the clause of the mediation law that it breaks, and differs in a step or a few from the
//! history that its script's schedule plays, as those in `refused` do.

ghost use Rattle.hist_model.specs.Mediated.{Each, LostIfGone, FetchesOldest, FindsNone, OpensMemory, OpensBase, ChecksOwn, ReadsMemory, ActsOnTree, PlantsWhereMapped, PutsOpen, TakesInstalled};
ghost use Rattle.mediation.specs.Unmediated.{container, Breaks};
ghost use Rattle.mediation.specs.Misled.{younger_fetched, altered_notification, blind_receive, blind_check, stray_check, late_check, unheld_memory, lost_root};
ghost use Rattle.mediation.specs.Misled.{other_bytes, other_outcome, unmapped_figures, closed_descriptor, other_number_taken, early_take};

/// A notification that isn't that of the oldest call that nobody has received, or not whole, is refused, and so is a receive
/// that finds nothing while there is such a call.
#[tactic(auto, using(crate::proofs::MisledWorkers::misreceived))]
pub fn wrong_receives_are_refused()
    ensures younger_fetched { Breaks (Each FetchesOldest) younger_fetched }
    ensures altered_notification { Breaks (Each FetchesOldest) altered_notification }
    ensures blind_receive { Breaks (Each FindsNone) blind_receive }
{}

/// A check that finds nothing while its session's call waits, though an older call has left, is refused; and so are a check of
/// another id, and one that finds a call that has left.
#[tactic(auto, using(crate::proofs::MisledWorkers::mischecked))]
pub fn wrong_checks_are_refused()
    ensures blind_check { Breaks (Each ChecksOwn) blind_check }
    ensures blind_loss { Breaks (Each LostIfGone) blind_check }
    ensures stray_check { Breaks (Each ChecksOwn) stray_check }
    ensures late_check { Breaks (Each ChecksOwn) late_check }
{}

/// An opening by a number that nobody holds, one that doesn't find what is there, and a read that gives other bytes than were
/// stored are refused.
#[tactic(auto, using(crate::proofs::MisledWorkers::misread))]
pub fn wrong_reads_are_refused()
    ensures unheld_memory { Breaks (Each OpensMemory) unheld_memory }
    ensures lost_root { Breaks (Each (OpensBase container)) lost_root }
    ensures other_bytes { Breaks (Each (ReadsMemory container)) other_bytes }
{}

/// An effect with another outcome than the tree or the memory gives, and a descriptor that is refused though it is open, are
/// refused.
#[tactic(auto, using(crate::proofs::MisledWorkers::misdone))]
pub fn wrong_outcomes_are_refused()
    ensures other_outcome { Breaks (Each (ActsOnTree container)) other_outcome }
    ensures unmapped_figures { Breaks (Each (PlantsWhereMapped container)) unmapped_figures }
    ensures closed_descriptor { Breaks (Each (PutsOpen container)) closed_descriptor }
{}

/// A take of another number than was installed, and one of a number before any was, are refused.
#[tactic(auto, using(crate::proofs::MisledWorkers::mistaken))]
pub fn wrong_takes_are_refused()
    ensures other_number_taken { Breaks (Each TakesInstalled) other_number_taken }
    ensures early_take { Breaks (Each TakesInstalled) early_take }
{}
