//! The texts of what is wrong with a line.

ghost use Rattle.std.specs.Prelude.{◌≡◌};
ghost use Rattle.step_session.specs.Reasons.{reason_text};

use lex_core::Reason;

/// The text of a reason.
pub fn reason_text(reason: Reason) -> &'static [u8]
    ensures { result.now ≡ reason_text reason }
{
    match reason {
        Reason::BadByte => b"bad byte",
        Reason::BadQuote => b"bad quote",
        Reason::UnknownWord => b"unknown word",
        Reason::OutOfPlace => b"out of place",
        Reason::WrongCount => b"wrong count",
        Reason::WrongForm => b"wrong form",
        Reason::BadNumber => b"bad number",
        Reason::OutOfRange => b"out of range",
        Reason::BadPath => b"bad path",
        Reason::UnknownName => b"unknown name",
        Reason::Duplicate => b"duplicate",
        Reason::Unmapped => b"unmapped",
        Reason::SecondListener => b"second listener",
        Reason::BadFilter => b"bad filter",
        Reason::NotClosed => b"not closed",
        Reason::NoProgram => b"no program",
        Reason::NoListener => b"no listener",
    }
}
