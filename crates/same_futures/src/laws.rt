//! What is the same after both histories.

ghost use Rattle.std.specs.Prelude.{◌≡◌, ◌<◌, ◌^◌, ℕ, List, ◌∷◌, length, true, ℤ};
ghost use Rattle.sys_abi.specs.declared.wire.Addfd.{Addfd};
ghost use Rattle.hist_model.specs.Files.{files, slot_in};
ghost use Rattle.hist_model.specs.Look.{Name};
ghost use Rattle.hist_model.specs.Memory.{bytes_read};
ghost use Rattle.hist_model.specs.Natives.{base_of, native_step};
ghost use Rattle.hist_model.specs.ReportAudit.{Judging};
ghost use Rattle.hist_model.specs.Deeds.{Deed};
ghost use Rattle.hist_model.specs.Legal.{system_of};
ghost use Rattle.hist_model.specs.Sessions.{Rules};
ghost use Rattle.hist_model.specs.Steps.{deed_step, pid_named, step};
ghost use Rattle.hist_model.specs.declared.event.Actor.{Actor};
ghost use Rattle.hist_model.specs.declared.event.Event.{Event};
ghost use Rattle.hist_model.specs.declared.policy.Policy.{Policy};
ghost use Rattle.hist_model.specs.declared.script.Script.{Script};
ghost use Rattle.delay_bounded.specs.Circle.{able, at_place, is_able, with_turn};
ghost use Rattle.delay_bounded.specs.Laws.{IsWalked};
ghost use Rattle.listener.specs.State as call_state;
ghost use Rattle.tasks.specs.State.{State, after};
ghost use Rattle.outcome_lines.specs.Lines.{lines_in};
ghost use Rattle.outcome_text.specs.Outcomes.{result_of};
ghost use Rattle.same_futures.specs.Kernels.{GoOnAlike, StandForStates};
ghost use Rattle.same_futures.specs.Lines.{ComeToTheSame, SameLines};
ghost use Rattle.same_futures.specs.Same.{Same};
ghost use Rattle.same_futures.specs.States.{HasStates};
ghost use Rattle.same_futures.specs.Places.{turn_of};
ghost use Rattle.same_futures.specs.Turns.{IsTurn};
ghost use Rattle.same_futures.specs.Walks.{AreAsLong, TellAlike, WalkAlike};
ghost use Rattle.same_futures.specs.Groups.{SameBytes, SameEntry, SameGroup, SameGroupOf};

/// A native call does the same, where the task's group has the same, the tree is the same, and the task has the same PID and entered the
/// same call last.
pub fn natives_are_the_same()
    ensures { (S : Script) (K L : List Event) (n : Name) → SameGroupOf S K L n → (files S L).tree ≡ (files S K).tree → pid_named L n ≡ pid_named K n → SameEntry K L n
        → native_step S L (files S L) n ≡ native_step S K (files S K) n }
{}

/// Groups with the same bytes and numbers are read alike, a number leads to the same directory, and what is asked for is installed at the
/// same number.
pub fn groups_answer_the_same()
    ensures read { (S : Script) (K L : List Event) (g h : ℕ) → SameBytes S K L g h → (a n : ℕ) → bytes_read S L h a n ≡ bytes_read S K g a n }
    ensures directory { (S : Script) (K L : List Event) (g h : ℕ) (d : ℤ) → SameGroup S K L g h → (files S L).tree ≡ (files S K).tree
        → base_of S (files S L) h d ≡ base_of S (files S K) g d }
    ensures slot { (S : Script) (K L : List Event) (g h rlimit : ℕ) (asked : Addfd) → SameGroup S K L g h → slot_in rlimit (files S L) h asked ≡ slot_in rlimit (files S K) g asked }
{}

/// Each step of an actor is the same after both histories.
pub fn steps_are_the_same()
    ensures { (S : Script) (tasks : State) (calls : call_state.State) (K L : List Event) → Same S tasks calls K L → (R : Rules) (a : Actor) → step (system_of S) R L a ≡ step (system_of S) R K a }
{}

/// So is the answer to anything that a worker asks of the kernel.
pub fn deeds_are_the_same()
    ensures { (S : Script) (tasks : State) (calls : call_state.State) (K L : List Event) → Same S tasks calls K L → (w : ℕ) (d : Deed) → deed_step (system_of S) L w d ≡ deed_step (system_of S) K w d }
{}

/// After a turn that comes after one of them, and so after both, all still goes on alike.
pub fn turns_keep_them_the_same()
    ensures { (S : Script) (tasks : State) (calls : call_state.State) (K L : List Event) → Same S tasks calls K L → (e : Event) → IsTurn S K e
        → Same S (after S tasks e) (call_state.after calls e) (e ∷ K) (e ∷ L) }
{}

/// The same actors are able to step after both, at the same places of the circle.
pub fn the_same_are_able()
    ensures { (S : Script) (tasks : State) (calls : call_state.State) (K L : List Event) → Same S tasks calls K L → (P : Policy) (W p : ℕ) → able P S W L p ≡ able P S W K p }
{}

/// After the turn of an actor at a place, which is a turn after one of them, all still goes on alike.
pub fn turns_of_places_keep_them_the_same()
    ensures { (S : Script) (tasks : State) (calls : call_state.State) (K L : List Event) → Same S tasks calls K L → (P : Policy) (q : ℕ) → IsTurn S K (turn_of P S K q)
        → Same S (after S tasks (turn_of P S K q)) (call_state.after calls (turn_of P S K q)) (with_turn P S K q) (with_turn P S L q) }
{}

/// They go on alike either way round, and with each that goes on alike with one of them: of many that an exploration joins, one after
/// another, each goes on as the first does.
pub fn the_same_are_joined()
    ensures back { (S : Script) (tasks : State) (calls : call_state.State) (K L : List Event) → Same S tasks calls K L → Same S tasks calls L K }
    ensures joined { (S : Script) (tasks : State) (calls : call_state.State) (K L M : List Event) → Same S tasks calls K L → Same S tasks calls L M
        → Same S tasks calls K M }
{}

/// The step of an actor that is able to step, after a history of a walk, is a turn: as the tables of a kernel take it.
pub fn able_actors_take_turns()
    ensures { (P : Policy) (S : Script) (W : ℕ) (tasks : State) (calls : call_state.State) (K : List Event) → HasStates S K tasks calls → IsWalked P S W K
        → length K < 2 ^ 64 → (q : ℕ) → is_able P S K (at_place K q) ≡ true → IsTurn S K (turn_of P S K q) }
{}

/// The walks on from two such histories are alike, one by one: as many delays are left to them, they have as many events, and all goes on
/// alike where they end. So what is the same of alike walks is told of both, in their order.
pub fn walks_are_alike()
    ensures walks { (P : Policy) (S : Script) (W : ℕ) → WalkAlike P S W }
    ensures told { (S : Script) → TellAlike S }
    ensures long { (S : Script) → AreAsLong S }
{}

/// After a turn both histories still have the same lines.
pub fn turns_keep_the_lines_the_same()
    ensures { (S : Script) (J : Judging) (tasks : State) (calls : call_state.State) (K L : List Event) → Same S tasks calls K L → SameLines S J K L
        → (e : Event) → IsTurn S K e → SameLines S J (e ∷ K) (e ∷ L) }
{}

/// They have the same lines where the lists of all their lines are equal.
pub fn equal_lists_have_the_same_lines()
    ensures { (S : Script) (J : Judging) (tasks : State) (calls : call_state.State) (K L : List Event) → Same S tasks calls K L → lines_in S J L ≡ lines_in S J K
        → SameLines S J K L }
{}

/// They have the same lines either way round, and with each that has the same as one of them.
pub fn the_same_lines_are_joined()
    ensures back { (S : Script) (J : Judging) (K L : List Event) → SameLines S J K L → SameLines S J L K }
    ensures joined { (S : Script) (J : Judging) (K L M : List Event) → SameLines S J K L → SameLines S J L M → SameLines S J K M }
{}

/// They come to the same, and so do the walks on from them, one by one: of many that an exploration joins, the outcomes of one, with the
/// number of walks that come to each, are those of all.
pub fn outcomes_are_the_same()
    ensures so_far { (S : Script) (J : Judging) (tasks : State) (calls : call_state.State) (K L : List Event) → Same S tasks calls K L → SameLines S J K L
        → result_of S J L ≡ result_of S J K }
    ensures walks { (P : Policy) (S : Script) (W : ℕ) (J : Judging) → ComeToTheSame P S W J }
{}

/// So it is with any states of tasks and calls that one of them has: of these the history leaves open only what is a matter of the script.
pub fn states_may_be_exchanged()
    ensures { (S : Script) (s t : State) (c d : call_state.State) (K L : List Event) → Same S s c K L → HasStates S K t d → Same S t d K L }
{}

/// A kernel has the states of its history, and after the histories of two kernels with the same tables all goes on alike.
pub fn the_same_tables_go_on_alike()
    ensures states { StandForStates }
    ensures alike { GoOnAlike }
{}
