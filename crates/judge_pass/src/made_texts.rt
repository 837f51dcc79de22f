//! The texts of the whole copies that a seat's reads make.

ghost use Rattle.std.specs.Prelude.{◌≡◌, ℕ, List, [], ◌∷◌, ◌++◌, true, reverse, All, IfOk, OnOk};
ghost use Rattle.broker_verdict.specs.Effects.{texts_copied};
ghost use Rattle.broker_verdict.specs.SeatCopies.{copies_of, texts_in, whole_in};
ghost use Rattle.broker_verdict.specs.Seats.{reads};
ghost use Rattle.hist_model.specs.Copies.{Progress};
ghost use Rattle.hist_model.specs.declared.event.Event.{Event};
ghost use Rattle.broker_judge.specs.Called.{IsCalled};
ghost use Rattle.broker_judge.specs.Copied.{Comes, IsAnswered};
ghost use Rattle.broker_judge.specs.Reads.{worth_of};
ghost use Rattle.judge_pass.specs.Reasons.{is_answered};

use crate::calls::Call;
use crate::seats::Seat;
use broker_judge::called::Called;
use broker_judge::copies::{BothCopies, Copied, make_copies};
use broker_judge::reads::{SeatRead, Worth};
use hist_model::text::{Sequence, Text};
use std::alloc::Global;
use sys_abi::errno::Errno;
use sys_abi::memory::NoMemory;

/// Whether each read was given some bytes, at most as many as it asked for, or EFAULT.
pub(crate) fn are_answered(reads: &[SeatRead]) -> bool
    ensures { result ≡ true → All IsAnswered reads.now }
{
    reads.iter().all(|read| is_answered(read))
}

/// Whether a read was given some bytes, at most as many as it asked for, or EFAULT.
fn is_answered(read: &SeatRead) -> bool
    ensures { result ≡ is_answered read.now }
{
    match read.answer() {
        Ok(bytes) => {
            let len = bytes.items().len();
            1 <= len && len <= usize::from(read.len())
        }
        Err(errno) => *errno == Errno::EFAULT,
    }
}

/// These texts alone.
pub(crate) fn one_list(alloc: Global, texts: Vec<Text>) -> Result<Vec<Sequence<Text>>, NoMemory>
    ensures { IfOk result (λ all. all.items ≡ texts.items ∷ []) }
{
    let mut all = Vec::with_capacity(alloc, 1)?;
    all.push(Sequence::new(texts))?;
    Ok(all)
}

/// Adds the texts of a copy that is whole.
fn push_whole(all: &mut Vec<Sequence<Text>>, copied: Copied) -> Result<(), NoMemory>
    ensures { (p : Progress) → Comes p copied → OnOk result (all.new.items ≡ all.old.items ++ texts_in p) }
{
    if let Copied::Whole(texts) = copied {
        all.push(Sequence::new(texts))?;
    }
    Ok(())
}

/// The texts of the copies that are whole.
fn whole_in(alloc: Global, made: BothCopies) -> Result<Vec<Sequence<Text>>, NoMemory>
    ensures { IfOk result (λ all. (newest planned : Progress) → Comes newest made.newest → Comes planned made.planned
        → all.items ≡ whole_in (newest ∷ planned ∷ [])) }
{
    let BothCopies { newest, planned } = made;
    let mut all = Vec::new(alloc);
    push_whole(&mut all, newest)?;
    push_whole(&mut all, planned)?;
    Ok(all)
}

/// The texts of the whole copies that the reads of this worth make.
pub(crate) fn whole_copies(
    alloc: Global,
    seat: &Seat,
    called: &Called,
    least: Worth,
) -> Result<Vec<Sequence<Text>>, NoMemory>
    requires { All IsAnswered seat.now.reads.items }
    ensures { IfOk result (λ all. (K : List Event) (w c : ℕ) → IsCalled K c called.now → reads K w ≡ reverse seat.now.reads.items
        → all.items ≡ whole_in (copies_of (worth_of least) K w c)) }
{
    let made = make_copies(alloc, seat.reads.as_slice(), least, called.nr, &called.args)?;
    whole_in(alloc, made)
}

/// The texts of the whole copies of the best reads that make one.
pub(crate) fn texts_copied(
    alloc: Global,
    seat: &Seat,
    call: &Call,
) -> Result<Vec<Sequence<Text>>, NoMemory>
    requires { All IsAnswered seat.now.reads.items }
    ensures { IfOk result (λ all. (K : List Event) (w c : ℕ) → IsCalled K c call.now.called → reads K w ≡ reverse seat.now.reads.items
        → all.items ≡ texts_copied K w c) }
{
    let valid = whole_copies(alloc, seat, &call.called, Worth::Valid)?;
    if !valid.is_empty() {
        return Ok(valid);
    }
    let fresh = whole_copies(alloc, seat, &call.called, Worth::Fresh)?;
    if !fresh.is_empty() {
        return Ok(fresh);
    }
    let stale = whole_copies(alloc, seat, &call.called, Worth::Stale)?;
    if !stale.is_empty() {
        return Ok(stale);
    }
    whole_copies(alloc, seat, &call.called, Worth::Foreign)
}
