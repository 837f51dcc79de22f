//! What the clauses come to. Each law is the contract of a function that does nothing.

ghost use Rattle.std.specs.Prelude.{◌≡◌, ◌<◌, ◌^◌, List, None, length};
ghost use Rattle.hist_model.specs.declared.event.Event.{Event};
ghost use Rattle.hist_model.specs.declared.policy.Policy.{Policy};
ghost use Rattle.hist_model.specs.declared.script.Script.{Script};
ghost use Rattle.hist_model.specs.Legal.{Legal, OfKernel};
ghost use Rattle.hist_model.specs.PolicyRules.{IsPolicy};
ghost use Rattle.hist_model.specs.ScriptRules.{IsScript};
ghost use Rattle.broker_verdict.specs.Brokers.{AreTurns, Turn, asked};
ghost use Rattle.broker_verdict.specs.Sentences.{Sentences};
ghost use Rattle.broker_verdict.specs.Trusted.{Trusted, first_fault};
ghost use Rattle.broker_verdict.specs.Verdicts.{Tells};

use mediation::kernel::kernel_keeps;

/// A verdict names nothing exactly where the broker can be trusted, else the least event that breaks a clause, and the first
/// clause that it breaks.
#[tactic(auto, using(crate::proofs::Judged::tells, crate::proofs::Judged::trusted_none))]
pub fn verdict_tells()
    ensures tells { (P : Policy) (S : Script) (K : List Event) → Tells P S K (first_fault P S K) }
    ensures exactly { (P : Policy) (S : Script) (K : List Event) → Trusted P S K → first_fault P S K ≡ None }
{}

/// What tasks and a broker do, turn by turn, is a history of the kernel.
#[tactic(auto, using(crate::proofs::Asked::asked_of_kernel))]
pub fn asked_is_of_the_kernel()
    ensures { (S : Script) (turns : List Turn) → AreTurns turns → length (asked S turns) < 2 ^ 64 → OfKernel S (asked S turns) }
{}

/// In a history of the kernel in which no clause is broken each notification is received and answered at most once, and each answer and
/// each descriptor is for the call of its own seat. Each act is what the policy grants on one copy of its call's arguments. The seat read
/// each byte of it in the caller's memory while the call waited, and found it valid afterwards. Each answer that was accepted has its cause.
pub fn trusted_is_lawful()
    ensures { (P : Policy) (S : Script) (K : List Event) → OfKernel S K → Trusted P S K → Sentences P S K }
{
    kernel_keeps();
}

/// Every legal history can be trusted: this project's own workers act once, for the call that they have in hand and before they answer,
/// on one copy of its arguments that they found valid, and answer what the policy says of it.
pub fn legal_is_trusted()
    ensures { (P : Policy) (S : Script) (K : List Event) → IsPolicy (record { rules = P.rules }) → IsScript S → Legal P S K → Trusted P S K }
{}
