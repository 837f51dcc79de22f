//! What follows from the definitions.

ghost use Rattle.call_lines.specs.Laws.{LinesAskForTheirCall, ModesAskForTheirKind};

/// The mode of a node asks for the kind that is written, whatever its permissions.
#[tactic(auto, using(crate::proofs::Modes::asked_kind))]
pub fn modes_ask_for_their_kind()
    ensures { ModesAskForTheirKind }
{}

/// The request of a line is one of the call whose name is written, and with `other` of one without a name.
#[tactic(auto, using(crate::proofs::AskedCalls::asked_as_written))]
pub fn lines_ask_for_their_call()
    ensures { LinesAskForTheirCall }
{}
