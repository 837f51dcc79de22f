//! What the structures that a broker hands over stand for, and what a listener needs to know of events that it has no call
//! for.

ghost use Rattle.std.specs.Int.{w64};
ghost use Rattle.std.specs.Prelude.{◌≡◌, ◌<◌, ◌^◌, ℕ, true, List, ◌∷◌, Ok, FitsSigned};
ghost use Rattle.sys_abi.specs.Wire.{resp_bytes};
ghost use Rattle.sys_abi.specs.declared.wire.Resp.{Resp};
ghost use Rattle.hist_model.specs.declared.event.Back.{Back};
ghost use Rattle.hist_model.specs.declared.event.Event.{Event};
ghost use Rattle.listener.specs.Answers.{may_be_sent, reading, response, back_of, IsBack, IsPlain};
ghost use Rattle.listener.specs.Fold.{Looks};
ghost use Rattle.listener.specs.Keys.{TellStates};
ghost use Rattle.listener.specs.Sound.{AreAsked, IsSound, IsStep};
ghost use Rattle.listener.specs.Stands.{StandsFor, IsOther};
ghost use Rattle.listener.specs.State.{State, after};
ghost use Rattle.listener.specs.declared.listener.Listener.{Listener};

/// The state of a history follows its events: after a step it is what the step makes of the state before.
pub fn states_follow_events()
    ensures { (first : ℕ) (K : List Event) (e : Event) (s : State) → Looks first K s → IsSound first K → AreAsked K → IsStep first K e e.what → Looks first (e ∷ K) (after s e) }
{}

/// After an event that changes no listed call and no request, a listener stands for the longer history as it is.
pub fn others_change_nothing()
    ensures { (first : ℕ) (K : List Event) (e : Event) (L : Listener) → StandsFor first K L → IsOther K e → StandsFor first (e ∷ K) L }
{}

/// What a broker sends is taken as it was meant: its bytes are read back as it, and pass the test of its structure.
pub fn a_response_is_parsed()
    ensures { (id : ℕ) (back : Back) → id < 2 ^ 64 → IsBack back → reading (resp_bytes (response id back)) ≡ Ok (response id back) }
{}

/// What a structure has a call return is what it was made for. A structure that may be sent is the one that is made for what
/// it has a call return, where it has no value beside an error.
pub fn a_response_says_how_the_call_returns()
    ensures back { (id : ℕ) (back : Back) → IsBack back → back_of (response id back) ≡ back }
    ensures response { (resp : Resp) → may_be_sent resp ≡ true → IsPlain resp → response resp.id (back_of resp) ≡ resp }
    ensures fits { (resp : Resp) → may_be_sent resp ≡ true → FitsSigned w64 resp.val → IsBack (back_of resp) }
{}

/// Keys of listeners end by themselves: where equal bytes begin with two of them, the listeners are the same state, and what comes after
/// is equal.
pub fn keys_tell_states()
    ensures { TellStates }
{}
