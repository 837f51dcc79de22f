//! Which workers have a notification in hand.

ghost use Rattle.std.specs.Prelude.{◌≡◌, ◌<◌, ◌∷◌, ◌||◌, List, false};
ghost use Rattle.std.specs.List.{list_all};
ghost use Rattle.hist_model.specs.Kinds.{skips};
ghost use Rattle.hist_model.specs.Legal.{started};
ghost use Rattle.hist_model.specs.Look.{ev};
ghost use Rattle.hist_model.specs.declared.event.Actor.TheVariants.{Worker};
ghost use Rattle.hist_model.specs.declared.event.Event.{Event};
ghost use Rattle.hist_model.specs.declared.script.Script.{Script};
ghost use Rattle.delay_bounded.specs.Circle.{all_in_hand, in_hand};
ghost use Rattle.explorer.specs.InHand.{full_after};

use hist_model::event::What;

/// Whether a worker has a notification in hand after its step.
fn full_after(full: bool, what: &What) -> bool
    ensures { result ≡ full_after full what.now }
{
    match what {
        What::Recv { answer: Ok(_) } => true,
        What::LetGo => false,
        _ => full,
    }
}

/// Whether all of these have a notification in hand.
fn are_full(full: &[bool]) -> bool
    ensures { result ≡ list_all (λ b. b) full.now }
{
    full.iter().all(|full| *full)
}

/// Of each of the workers 0 to 15 whether it has a notification in hand.
#[derive(Clone, Copy, Drop, Debug)]
pub(crate) struct Hands {
    full: [bool; 16],
}

impl Hands {
    ghost use Rattle.explorer.specs.InHand.{Tells};

    /// Before any step.
    pub(crate) fn empty() -> Hands
        ensures { (S : Script) → Tells (started S) result }
    {
        Hands { full: [false; 16] }
    }

    /// Whether a worker has a notification in hand, or all below it have.
    pub(crate) fn may_step(&self, worker: u8) -> bool
        requires { worker < 16 }
        ensures { (K : List Event) → Tells K self.now → result ≡ in_hand K worker || all_in_hand K worker }
    {
        let worker = worker as usize;
        self.full[worker] || are_full(&self.full[..worker])
    }

    /// Whether a worker has a notification in hand.
    pub(crate) fn is_full(&self, worker: u8) -> bool
        requires { worker < 16 }
        ensures { (K : List Event) → Tells K self.now → result ≡ in_hand K worker }
    {
        self.full[worker as usize]
    }

    /// A worker took this step.
    pub(crate) fn note(&mut self, worker: u8, what: &What)
        requires worker { worker < 16 }
        requires steps { skips what.now ≡ false }
        ensures { (K : List Event) → Tells K self.old → Tells (ev (Worker worker) what.now ∷ K) self.new }
    {
        let worker = worker as usize;
        self.full[worker] = full_after(self.full[worker], what);
    }
}
