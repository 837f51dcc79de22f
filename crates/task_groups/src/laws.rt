//! What a kernel needs to know of groups beside what each call ensures.

ghost use Rattle.std.specs.Prelude.{◌≡◌, ◌↔◌, ℕ, ◌+◌, ◌<◌, ◌^◌, List, [], ◌∷◌, Option, Some, Result};
ghost use Rattle.sys_abi.specs.declared.wire.Addfd.{Addfd};
ghost use Rattle.hist_model.specs.Files.{files, slot_in};
ghost use Rattle.hist_model.specs.Look.{Name};
ghost use Rattle.hist_model.specs.Memory.{bytes_read, group_named, last_call, stored_by_call};
ghost use Rattle.hist_model.specs.Natives.{NativeStep, lowest_free, native_answer, native_step};
ghost use Rattle.hist_model.specs.declared.event.Actor.TheVariants.{Task};
ghost use Rattle.hist_model.specs.declared.event.Event.{Event};
ghost use Rattle.hist_model.specs.declared.event.What.TheVariants.{Native};
ghost use Rattle.hist_model.specs.declared.script.Script.{Script};
ghost use Rattle.history_frames.specs.Ordinals.{group_of};
ghost use Rattle.task_groups.specs.Groups.{Holds, HasRow, IsLive};
ghost use Rattle.task_groups.specs.Keys.{TellGroups, TellHeld};
ghost use Rattle.task_groups.specs.Rows.{SameGroups};
ghost use Rattle.task_groups.specs.Stands.{IsCopyOf, IsFresh, IsInstall, IsOther, IsPlant, IsPoke, bytes_done, slot_done, state};
ghost use Rattle.task_groups.specs.State.{State, Agree, free_of, no_groups, place_for, read_from, with_change, with_copy, with_fresh, with_installed, with_stored};
ghost use Rattle.task_groups.specs.declared.groups.Groups.{Groups};

/// Groups that hold a state hold each that tells the same.
pub fn states_that_agree_are_held()
    ensures { (s t : State) (G : Groups) → Agree s t → Holds s G → Holds t G }
{}

/// The state of the longer history is what the event makes of the state before: a spawn makes a group, `poke` and `plant` store bytes,
/// an installation opens a number, a native call stores and sets what its step says, and any other event changes nothing.
pub fn states_follow_events()
    ensures first { (S : Script) → Agree (no_groups S.map S.rlimit) (state S [] (λ o. 0) (λ o. 0)) }
    ensures fresh { (S : Script) (K : List Event) (e : Event) (living handles : ℕ → ℕ) → IsFresh e → Agree (with_fresh (state S K living handles)) (state S (e ∷ K) (with_fresh (state S K living handles)).living handles) }
    ensures copy { (S : Script) (K : List Event) (e : Event) (living handles : ℕ → ℕ) (o : ℕ) → IsCopyOf K e o → Agree (with_copy o (state S K living handles)) (state S (e ∷ K) (with_copy o (state S K living handles)).living handles) }
    ensures poke { (S : Script) (K : List Event) (e : Event) (living handles : ℕ → ℕ) (o a : ℕ) (bytes : List ℕ) → IsPoke K e o a bytes → Agree (with_stored o a bytes (state S K living handles)) (state S (e ∷ K) living handles) }
    ensures plant { (S : Script) (K : List Event) (e : Event) (living handles : ℕ → ℕ) (o a : ℕ) (bytes : List ℕ) → IsPlant K e o a bytes → Agree (with_stored o a bytes (state S K living handles)) (state S (e ∷ K) living handles) }
    ensures install { (S : Script) (K : List Event) (e : Event) (living handles : ℕ → ℕ) (o g : ℕ) (asked : Addfd) (answer : Result ℕ ℕ) → group_of K o ≡ Some g → IsInstall K e g asked answer
        → Agree (with_installed o asked.srcfd answer (state S K living handles)) (state S (e ∷ K) living handles) }
    ensures native { (S : Script) (K : List Event) (e : Event) (living handles : ℕ → ℕ) (n : Name) (o g : ℕ) (bytes : Option (ℕ × List ℕ)) (s : NativeStep) (a : Result ℕ ℕ) → e.who ≡ Task n → e.what ≡ Native a → group_named K n ≡ Some g → group_of K o ≡ Some g
        → stored_by_call S (last_call K n) ≡ bytes → native_step S K (files S K) n ≡ s → a ≡ native_answer s → Agree (with_change o (bytes_done bytes a) (slot_done s) (state S K living handles)) (state S (e ∷ K) living handles) }
    ensures other { (S : Script) (K : List Event) (e : Event) (living handles : ℕ → ℕ) → IsOther S K e.who e.what → Agree (state S K living handles) (state S (e ∷ K) living handles) }
{}

/// The state of a history answers what the definitions do.
pub fn states_answer()
    ensures read { (S : Script) (K : List Event) (living handles : ℕ → ℕ) (o g a n : ℕ) → group_of K o ≡ Some g → read_from (state S K living handles) o a n ≡ bytes_read S K g a n }
    ensures slot { (S : Script) (K : List Event) (living handles : ℕ → ℕ) (o g n : ℕ) → group_of K o ≡ Some g → ((state S K living handles).contents o).slot n ≡ (files S K).slot g n }
    ensures free { (S : Script) (K : List Event) (living handles : ℕ → ℕ) (o g : ℕ) → group_of K o ≡ Some g → free_of (state S K living handles) o ≡ lowest_free (files S K) g S.rlimit }
    ensures place { (S : Script) (K : List Event) (living handles : ℕ → ℕ) (o g : ℕ) (asked : Addfd) → group_of K o ≡ Some g → place_for (state S K living handles) o asked ≡ slot_in S.rlimit (files S K) g asked }
{}

/// A group that has a living task is live, where it has fewer than 2^63 holders: in a kernel there are fewer than 2^32
/// tasks, and at most 17 workers, each of which has one handle at most.
pub fn living_groups_are_live()
    ensures { (s : State) (G : Groups) (o : ℕ) → Holds s G → 0 < s.living o → s.living o + s.handles o < 2 ^ 63 → IsLive G o }
{}

/// Groups with other room hold what they held.
pub fn room_changes_nothing()
    ensures { (s : State) (old new : Groups) → SameGroups old new → Holds s old ↔ Holds s new }
{}

/// Each group that was made has a row, also where nobody is of it any more.
pub fn made_groups_have_rows()
    ensures { (s : State) (G : Groups) (o : ℕ) → Holds s G → o < s.made → HasRow G o }
{}

/// Keys of groups end by themselves: where equal bytes begin with two of them, the groups have the same, and what comes after is equal.
/// Then the states that they hold have the same, too, where somebody holds a group in both.
pub fn keys_tell_groups()
    ensures groups { TellGroups }
    ensures held { TellHeld }
{}
