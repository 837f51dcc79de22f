//! The laws of reports and of the pass over their lines.

ghost use Rattle.std.specs.Prelude.{ℕ, List};
ghost use Rattle.hist_model.specs.PolicyRules.{IsPolicy};
ghost use Rattle.hist_model.specs.declared.policy.Policy.{Policy};
ghost use Rattle.hist_model.specs.declared.script.Script.{Script};
ghost use Rattle.audit_check.specs.Lines.{AgreeingBegins, AgreeingPastIsSame, BeginningAgrees};
ghost use Rattle.audit_check.specs.Reading.{EndsAtFault, EndsBehind, FindsFaults, FindsReports};
ghost use Rattle.audit_check.specs.Reported.{IsUnique};

/// A text that agrees with another on its first lines begins with them; one that begins with them, where each is ended, agrees
/// on them; and one that agrees on more lines than the other has is the other.
#[tactic(auto, using(crate::proofs::Lines::agree_begins, crate::proofs::Lines::begins_agree, crate::proofs::Lines::agree_past))]
pub fn agreeing_is_beginning()
    ensures begins { AgreeingBegins }
    ensures agrees { BeginningAgrees }
    ensures past { AgreeingPastIsSame }
{}

/// A legal history whose report begins with some lines exists exactly where the pass that lets the actor of each line step
/// agrees with all of them; and the bytes are a report exactly where the pass comes to that report's end.
#[tactic(auto, using(crate::proofs::Reading::finds_faults, crate::proofs::Reading::finds_reports))]
pub fn reports_are_read()
    ensures faults { (P : Policy) (S : Script) → IsPolicy P → FindsFaults P S }
    ensures reports { (P : Policy) (S : Script) → IsPolicy P → FindsReports P S }
{}

/// Where the pass first finds a fault is the fault line; where it finds none, and comes to no report's end, this is the line
/// behind the last.
#[tactic(auto, using(crate::proofs::Faults::at_fault, crate::proofs::Faults::behind_last))]
pub fn faults_are_found()
    ensures inside { (P : Policy) (S : Script) → IsPolicy P → (bytes : List ℕ) → EndsAtFault P S bytes }
    ensures behind { (P : Policy) (S : Script) → IsPolicy P → (bytes : List ℕ) → EndsBehind P S bytes }
{}

/// Bytes are the report of one legal history at most, and have one fault line at most, and not both.
#[tactic(auto, using(crate::proofs::Faults::is_unique))]
pub fn reports_are_unique()
    ensures { (P : Policy) (S : Script) → IsPolicy P → (bytes : List ℕ) → IsUnique P S bytes }
{}
