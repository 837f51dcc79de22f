//! Of which histories the schedules with requests are.

ghost use Rattle.std.specs.Prelude.{List};
ghost use Rattle.std.specs.List.{All};
ghost use Rattle.hist_model.specs.declared.policy.Policy.{Policy};
ghost use Rattle.hist_model.specs.declared.script.Script.{Script};
ghost use Rattle.step_requests.specs.declared.request.Turn.{Turn};
ghost use Rattle.asked_steps.specs.Steps.{IsBegun};
ghost use Rattle.turn_player.specs.Turns.{IsTurn, turned};

/// Whatever the lines of a schedule are, the history that they play is one of the kernel.
pub fn turned_is_of_the_kernel()
    ensures { (P : Policy) (S : Script) (turns : List Turn) → All IsTurn turns → IsBegun S (turned P S turns) }
{}
