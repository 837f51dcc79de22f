//! What follows from the definitions.

ghost use Rattle.policy_classes.specs.Laws.{ChoicesAreIndependent, ConditionsAreAtoms, OneFieldCounts};
ghost use Rattle.policy_classes.specs.Standing.{DescriptorsStand, NodesStand, TextsStand};

/// A request meets a condition exactly where each of its atoms holds.
#[tactic(auto, using(crate::proofs::Conditions::conditions_are_atoms))]
pub fn conditions_are_atoms()
    ensures { ConditionsAreAtoms }
{}

/// Whether an atom holds depends on what it sees of one field alone.
#[tactic(auto, using(crate::proofs::Sights::one_field_counts))]
pub fn one_field_counts()
    ensures { OneFieldCounts }
{}

/// A choice of a value for one field changes nothing that is seen of another.
#[tactic(auto, using(crate::proofs::Untouched::untouched))]
pub fn choices_are_independent()
    ensures { ChoicesAreIndependent }
{}

/// The texts that are chosen for a field stand for all that calls may have there, and none is greater than the one that stands
/// for it.
#[tactic(auto, using(crate::proofs::TextCases::texts_stand))]
pub fn texts_stand()
    ensures { TextsStand }
{}

/// So do descriptors.
#[tactic(auto, using(crate::proofs::DescriptorCases::descriptors_stand))]
pub fn descriptors_stand()
    ensures { DescriptorsStand }
{}

/// And modes with device numbers.
#[tactic(auto, using(crate::proofs::NodeCases::nodes_stand))]
pub fn nodes_stand()
    ensures { NodesStand }
{}
