//! Laws of the kernel's histories, whoever its workers are: a broker of any kind may ask for anything, in any order, and is
//! answered by the definitions. Each is the contract of a function that does nothing.

ghost use Rattle.std.specs.Prelude.{◌<◌, ◌^◌, List, length};
ghost use Rattle.hist_model.specs.declared.event.Event.{Event};
ghost use Rattle.hist_model.specs.declared.policy.Policy.{Policy};
ghost use Rattle.hist_model.specs.declared.script.Script.{Script};
ghost use Rattle.hist_model.specs.Laws.{CallsAreLast, CountIs};
ghost use Rattle.hist_model.specs.Legal.{Legal, OfKernel};
ghost use Rattle.hist_model.specs.Steps.{IsOfKernel};
ghost use Rattle.hist_model.specs.Systems.{System};
ghost use Rattle.mediation.specs.Facts.{CallIdsDiffer, NamesDiffer};
ghost use Rattle.mediation.specs.Kernels.{KernelKeeps};

/// Whatever a broker does, the kernel gives each notification to one receive, answers it at most once, installs a descriptor
/// where its request says and nowhere else, answers ID_VALID, SEND and ADDFD as the calls that wait say, tells a worker what is
/// so, and lets nothing past the broker that the filters don't.
pub fn kernel_keeps()
    ensures { (S : Script) (K : List Event) → OfKernel S K → KernelKeeps S K }
{}

/// Every legal history is one of the kernel.
#[tactic(auto, using(crate::proofs::Rows::legal_of_kernel))]
pub fn legal_is_of_kernel()
    ensures { (P : Policy) (S : Script) (K : List Event) → Legal P S K → OfKernel S K }
{}

/// Two calls have different ids, whether listed or not, as long as ids don't wrap.
#[tactic(auto, using(crate::proofs::KernelCalls::call_ids))]
pub fn ids_differ()
    ensures { (S : System) (K : List Event) → IsOfKernel S K → length K < 2 ^ 64 → CallIdsDiffer K }
{}

/// A listed call's task lives, and its last step of its own but `Install` and `Skip` is that call.
pub fn calls_are_last()
    ensures { (S : System) (K : List Event) → IsOfKernel S K → CallsAreLast K }
{}

/// Two tasks have different names.
#[tactic(auto, using(crate::proofs::KernelTasks::names_differ))]
pub fn names_differ()
    ensures { (S : System) (K : List Event) → IsOfKernel S K → NamesDiffer K }
{}

/// The request count is the number of listed calls that are not fetched, and of those that left the list unfetched,
/// less the receives that found nothing.
#[tactic(auto, using(crate::proofs::KernelCalls::count_is))]
pub fn count_is()
    ensures { (S : System) (K : List Event) → IsOfKernel S K → length K < 2 ^ 64 → CountIs K }
{}
