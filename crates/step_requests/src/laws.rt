//! What lines come to, whichever they are.

ghost use Rattle.step_requests.specs.Laws.{ActsAreOfCalls, MknodIsMknodat, PutsTheFields, ReadsItsTokens, ReceivesIntoZeros, SendsTheFields};

/// A receive that states no buffer is one into zeros.
pub fn receives_into_zeros()
    ensures { ReceivesIntoZeros }
{}

/// An answer asks for the same by its fields, in whatever way their numbers are written, and by its bytes, in digits of either
/// case.
pub fn sends_the_fields()
    ensures { SendsTheFields }
{}

/// So does a request for a descriptor.
pub fn puts_the_fields()
    ensures { PutsTheFields }
{}

/// What `mknod` asks for has the effect of `mknodat` from AT_FDCWD, and is refused where that is, for the same reason.
pub fn mknod_is_mknodat()
    ensures { MknodIsMknodat }
{}

/// What a worker acts is the request of a call with these arguments and texts, as a policy would judge it.
pub fn acts_are_of_calls()
    ensures { ActsAreOfCalls }
{}

/// A line that is given alone is read by its tokens, without the byte 13 at its end.
pub fn reads_its_tokens()
    ensures { ReadsItsTokens }
{}
