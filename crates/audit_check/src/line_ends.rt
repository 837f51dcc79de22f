//! The lines of a report, and the number that its title tells.

ghost use Rattle.std.specs.Prelude.{◌≡◌, ◌<◌, ◌==◌, ◌∷◌, length, position, IfOk};
ghost use Rattle.audit_check.specs.Lines.{lines};
ghost use Rattle.audit_check.specs.Pass.{count_in};
ghost use Rattle.audit_check.specs.Reading.{title_word};

use audit_log::line::LineBuffer;
use memchr::memchr;
use plain_words::number_between;
use std::alloc::Global;
use sys_abi::memory::NoMemory;

/// The place of the byte that ends the first line.
#[tactic(auto, using(crate::proofs::Cut::first_place))]
fn line_end(text: &[u8]) -> Option<usize>
    ensures { result ≡ position (λ b. b == 10) text.now }
{
    memchr(b'\n', text)
}

/// The first line of a text, with the byte that ends it, and what stands behind it.
#[tactic(auto, using(crate::proofs::Cut::line_ended, crate::proofs::Cut::end_within, crate::proofs::Cut::last_line))]
pub(crate) fn split_line(text: &[u8]) -> (&[u8], &[u8])
    requires { 0 < length text.now }
    ensures lines { lines text.now ≡ result.0.now ∷ lines result.1.now }
    ensures shorter { length result.1.now < length text.now }
{
    match line_end(text) {
        Some(end) => (&text[..end + 1], &text[end + 1..]),
        None => (text, &[]),
    }
}

/// What stands behind `journal ` in a title, without the byte that ends it.
fn title_word(line: &[u8]) -> &[u8]
    ensures { result.now ≡ title_word line.now }
{
    let front = &line[..line.len().saturating_sub(1)];
    if front.len() < 8 { &[] } else { &front[8..] }
}

/// The number of events that a journal's title tells; none where the line is no such title.
pub(crate) fn count_in(alloc: Global, line: &[u8]) -> Result<Option<u64>, NoMemory>
    ensures { IfOk result (λ n. n ≡ count_in line.now) }
{
    let Some(count) = number_between(title_word(line), 1, u64::MAX) else {
        return Ok(None);
    };
    let mut title = LineBuffer::new(alloc);
    title.push("journal ")?;
    title.push_number(count)?;
    title.push("\n")?;
    if title.bytes() == line {
        Ok(Some(count))
    } else {
        Ok(None)
    }
}
