//! What a broker may do otherwise than this project's own does: small histories of the kernel in which no clause is broken.

ghost use Rattle.broker_verdict.specs.Mistakes.{BreaksNone, one_node};
ghost use Rattle.broker_verdict.specs.Allowed.{as_in_the_manual, checks_once, reads_largely, reads_in_pieces, reads_equally, holds_two, acts_for_the_dead, puts_and_sends, remembers_result, tells_of_no_base, reads_twice_there, injects_unread, puts_again, answers_the_dead};
ghost use Rattle.broker_verdict.specs.Allowed.{full_table, killed_caller, no_directory, one_file, restarted, shared_texts, two_callers};

/// No check before the copy; one large read, pieces of any length, and a read once more; several calls in hand; a caller that ends
/// behind the check; a descriptor put in and its number sent apart; a result that is remembered; two texts at one address; a descriptor
/// put in by registers alone, or again where the table had no room; and an answer that nobody hears.
#[tactic(auto, using(crate::proofs::AllowedKept::allowed))]
pub fn allowed_breaks_none()
    ensures as_in_the_manual { BreaksNone one_node as_in_the_manual }
    ensures checks_once { BreaksNone one_node checks_once }
    ensures reads_largely { BreaksNone one_node reads_largely }
    ensures reads_in_pieces { BreaksNone one_node reads_in_pieces }
    ensures reads_equally { BreaksNone one_node reads_equally }
    ensures holds_two { BreaksNone two_callers holds_two }
    ensures acts_for_the_dead { BreaksNone killed_caller acts_for_the_dead }
    ensures puts_and_sends { BreaksNone one_file puts_and_sends }
    ensures remembers_result { BreaksNone restarted remembers_result }
    ensures tells_of_no_base { BreaksNone no_directory tells_of_no_base }
    ensures reads_twice_there { BreaksNone shared_texts reads_twice_there }
    ensures injects_unread { BreaksNone one_file injects_unread }
    ensures puts_again { BreaksNone full_table puts_again }
    ensures answers_the_dead { BreaksNone killed_caller answers_the_dead }
{}
