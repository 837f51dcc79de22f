//! What containers that stand beside each other can't do to one another.

ghost use Rattle.std.specs.Prelude.{◌≡◌};
ghost use Rattle.hist_model.specs.ScriptRules.{IsScript};
ghost use Rattle.hist_model.specs.declared.policy.Policy.{Policy};
ghost use Rattle.hist_model.specs.declared.script.Script.{Script};
ghost use Rattle.pod_broker.specs.Examples.{Separate, Overlapping, SignalsNobody, SignalsItself, OwnSteps, GivesItsNumbers, SharesNumbers};
ghost use Rattle.pod_broker.specs.Pods.{FixedByOwn, GivesInRange, KillsInside, KillsNoneBeside, OverlapIsShared, RangesSetApart};

/// Legal histories of one policy and one script in which the same actors step in the same order are equal. So what a container is
/// answered depends on its policy, its script and the order of its own steps alone.
#[tactic(auto, using(crate::proofs::Isolation::fixed_by_own))]
pub fn isolation()
    ensures { (P : Policy) (S : Script) → FixedByOwn P S }
{}

/// Each PID that a container's tasks get lies in its script's range.
#[tactic(auto, using(crate::proofs::Ranges::gives_in_range))]
pub fn numbers_keep_their_range()
    ensures { (P : Policy) (S : Script) → IsScript S → GivesInRange P S }
{}

/// Two ranges overlap exactly where some number lies in both.
#[tactic(auto, using(crate::proofs::Ranges::overlap_is_shared))]
pub fn overlap_is_a_shared_number()
    ensures { (S T : Script) → IsScript S → IsScript T → OverlapIsShared S T }
{}

/// Containers whose scripts' ranges don't overlap give no common PID.
#[tactic(auto, using(crate::proofs::Ranges::ranges_set_apart))]
pub fn ranges_set_apart()
    ensures { (P Q : Policy) (S T : Script) → IsScript S → IsScript T → RangesSetApart P S Q T }
{}

/// A signal to a PID outside of the container's own range is answered ESRCH, and so is one to a number in the range of
/// another container, where the two ranges don't overlap.
#[tactic(auto, using(crate::proofs::Ranges::kills_inside, crate::proofs::Ranges::kills_none_beside))]
pub fn signals_stay_inside()
    ensures outside { (P : Policy) (S : Script) → IsScript S → KillsInside P S }
    ensures beside { (P : Policy) (S T : Script) → IsScript S → KillsNoneBeside P S T }
{}

/// Two small containers: whether their ranges overlap, what a signal to the number 11 is answered in each, whose steps are whose, and
/// which numbers they give.
#[tactic(auto, using(crate::proofs::Worked::worked))]
pub fn small_containers()
    ensures separate { Separate }
    ensures overlapping { Overlapping }
    ensures nobody { SignalsNobody }
    ensures itself { SignalsItself }
    ensures own_steps { OwnSteps }
    ensures numbers { GivesItsNumbers }
    ensures shared { SharesNumbers }
{}
