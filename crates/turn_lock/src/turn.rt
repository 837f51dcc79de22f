//! What is done to the state behind the lock.

ghost use Rattle.std.specs.Prelude.{◌≡◌, ◌+◌, ◌≤◌, length};
ghost use Rattle.turn_lock.specs.Lists.{Begins};

use hist_model::history::Journalled;

/// Something that is done to a state in one turn of a lock, and adds one event at most to its history.
///
/// It says by `plays` what it does, so that a caller knows it of the state that the turn was played on, and by `asks` what it
/// needs of that state. A caller of `TurnLock::turn` owes `asks` of each state that its pass may find.
pub trait Turn<S: Journalled> {
    /// What is true of the turn and the state before, and of both after.
    ghost plays: { Self → S → Self → S → Type 0 };

    /// What is asked of the turn and of the state that it finds.
    ghost asks: { Self → S → Type 0 };

    /// Plays the turn. It may add one event to the history, and changes neither what stands there nor the setup.
    fn play(&mut self, state: &mut S)
        requires { asks self.old state.old }
        ensures plays { plays self.old state.old self.new state.new }
        ensures setup { S.setup state.new ≡ S.setup state.old }
        ensures history { Begins (S.history state.new).events (S.history state.old).events }
        ensures one { length (S.history state.new).events ≤ length (S.history state.old).events + 1 };
}
