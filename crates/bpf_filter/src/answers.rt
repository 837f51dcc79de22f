//! What the answers of filters mean (seccomp(2), return values).

ghost use Rattle.std.specs.Prelude.{◌≡◌, ◌<◌, ◌≤◌, ◌+◌, ◌^◌, nat_lt};
ghost use Rattle.hist_model.specs.Filters as definitions;
ghost use Rattle.bpf_filter.specs.Choices.{newer_filter};

use crate::machine::{Words, run_insns, words};
use crate::numbers::{ACTION, ALLOW, ARCH, DATA, ERRNO, LOG, TRACE, USER_NOTIF};
use hist_model::event::Entered;
use hist_model::script::FilterLine;
use sys_abi::wire::SeccompData;

/// How far the action of an answer stands above the least one, where actions are signed numbers of 32 bits.
fn rank(value: u32) -> u32
    ensures { result ≡ definitions.rank value }
{
    (value & ACTION).wrapping_add(1 << 31)
}

/// Whether the answer of an older filter counts before that of a newer one: its action has a higher precedence.
fn counts_before(older: u32, newer: u32) -> bool
    ensures { result ≡ nat_lt (definitions.rank older) (definitions.rank newer) }
{
    rank(older) < rank(newer)
}

/// The answer of a newer filter beside the one that counts among the older ones.
fn with_newer(value: u32, older: (u32, usize)) -> (u32, usize)
    requires { older.1 < 2 ^ 63 }
    ensures value { result ≡ definitions.with_newer value older }
    ensures small { result.1 ≤ older.1 + 1 }
{
    if counts_before(older.0, value) {
        (older.0, older.1 + 1)
    } else {
        (value, 0)
    }
}

/// Of the filters' answers, the newest first, the one of highest precedence, the newest among equals, and its place; ALLOW and
/// 0 where there is none.
#[tactic(auto, using(crate::proofs::Precedence::combine_more, crate::proofs::Precedence::combine_past))]
pub fn combine(values: &[u32]) -> (u32, usize)
    ensures { result ≡ definitions.combine values.now }
{
    let mut best = (ALLOW, 0);
    let mut place = values.len();
    while place > 0 {
        place -= 1;
        best = with_newer(values[place], best);
    }
    best
}

/// What an answer does; `listener` is whether its filter has the listener.
fn entered(value: u32, listener: bool) -> Entered
    ensures { result ≡ definitions.entered value listener }
{
    match value & ACTION {
        ERRNO => Entered::Fails((value & DATA).min(4095) as u16),
        USER_NOTIF if listener => Entered::Notify { id: 0 },
        USER_NOTIF | TRACE => Entered::NoSys,
        LOG => Entered::Log,
        ALLOW => Entered::Allow,
        _ => Entered::Kill,
    }
}

/// The answer that counts, and whether its filter has the listener.
type Choice = (u32, bool);

/// The answer of a newer filter, to a call whose data are these words, beside the one that counts among the older filters.
fn newer_filter(filter: &FilterLine, words: &Words, older: Choice) -> Choice
    ensures { result ≡ newer_filter filter.now words.now older }
{
    let value = run_insns(filter.insns.items(), words);
    if counts_before(older.0, value) {
        older
    } else {
        (value, filter.listener)
    }
}

/// What the filters see of a call.
fn seccomp_data(nr: i32, args: &[u64; 6]) -> SeccompData
    ensures { result ≡ definitions.seccomp_data nr args.now }
{
    SeccompData {
        nr,
        arch: ARCH,
        ip: 0,
        args: *args,
    }
}

/// What a script's filters, the oldest first, say of a call: the answer of highest precedence decides, the newest among equals.
/// A notification has the id 0 here. No memory is taken.
pub fn verdict(filters: &[FilterLine], nr: i32, args: &[u64; 6]) -> Entered
    ensures { result ≡ definitions.verdict filters.now nr args.now }
{
    let words = words(&seccomp_data(nr, args));
    let mut chosen = (ALLOW, false);
    for filter in filters {
        chosen = newer_filter(filter, &words, chosen);
    }
    entered(chosen.0, chosen.1)
}
