//! What the lines of a history tell.

ghost use Rattle.key_bytes.specs.Parts.{Ends};
ghost use Rattle.outcome_lines.specs.Keys.{lines_part};
ghost use Rattle.outcome_lines.specs.Texts.{TellOutcomes};

/// The lines of a history and the tree at its end tell the text of what it comes to.
pub fn lines_tell_outcomes()
    ensures { TellOutcomes }
{}

/// Keys of lines end by themselves: where equal bytes begin with two of them, the lines are equal, and so is what comes behind.
pub fn keys_tell_lines()
    ensures { Ends lines_part }
{}
