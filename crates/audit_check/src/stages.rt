//! How far the check of a report has come.

/// What is left of a report, behind so many lines.
#[derive(Clone, Copy)]
pub(crate) struct Left<'a> {
    pub(crate) text: &'a [u8],
    pub(crate) number: u32,
}

/// What a line of the journal does.
#[derive(Clone, Copy)]
pub(crate) enum Stepped {
    /// The machine has come to the event.
    Went,
    /// It is the line of the close, which comes last.
    Closed,
    /// No legal history has the line there.
    Faulty,
}

/// How the journal ends.
#[derive(Clone, Copy)]
pub(crate) enum Ended<'a> {
    /// The machine has come to its history.
    Open(Left<'a>),
    /// To all of it but the close.
    Closed(Left<'a>),
    /// At the fault line.
    Faulty(u32),
}
