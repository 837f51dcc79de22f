//! Of which histories the answers tell.

ghost use Rattle.std.specs.Prelude.{◌<◌, ◌^◌, ℕ, List, length};
ghost use Rattle.hist_model.specs.Legal.{OfKernel, started};
ghost use Rattle.hist_model.specs.declared.event.Event.{Event};
ghost use Rattle.step_session.specs.declared.origin.Origin.{Origin};
ghost use Rattle.hist_model.specs.declared.script.Script.{Script};
ghost use Rattle.asked_steps.specs.Steps.{IsBegun};
ghost use Rattle.step_session.specs.Answers.{IsAsked, answered};
ghost use Rattle.step_requests.specs.declared.request.StepRequest.{StepRequest};
ghost use Rattle.step_session.specs.Lines.{history_after};

/// Whatever is asked for, the history stays one of the kernel, so all holds of it that the kernel keeps whoever its workers are
/// (`mediation::kernel`).
pub fn answers_are_of_the_kernel()
    ensures { (P : Origin) (S : Script) (K : List Event) (r : StepRequest) → IsAsked r → IsBegun S K → IsBegun S (answered P S K r).0 }
{}

/// Whatever the lines are, the history after them is one of the kernel.
pub fn histories_are_of_the_kernel()
    ensures { (P : Origin) (S : Script) (lines : List (List ℕ)) → IsBegun S (history_after P S (started S) lines) }
{
    answers_are_of_the_kernel();
}

/// So all holds of it that the kernel keeps whoever its workers are (`mediation::kernel`), as long as its events can be counted.
pub fn short_histories_are_of_the_kernel()
    ensures { (P : Origin) (S : Script) (lines : List (List ℕ)) → length (history_after P S (started S) lines) < 2 ^ 64
        → OfKernel S (history_after P S (started S) lines) }
{
    histories_are_of_the_kernel();
}
