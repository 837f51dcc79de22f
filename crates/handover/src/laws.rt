//! Laws of the ledgers of a history. Each is the contract of a function that does nothing.

ghost use Rattle.handover.specs.Ledgers.{LedgersBehindHandOver, LedgersHandOver};

/// Whatever the legal history and the worker, its ledger is one, and a successor goes on from it as the worker: between two
/// of its steps with the worker's own ledger, and after a step that the ledger hasn't with that step's answer.
pub fn ledgers_hand_over()
    ensures between { LedgersHandOver }
    ensures behind { LedgersBehindHandOver }
{}
