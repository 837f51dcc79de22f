//! What instructions do.

ghost use Rattle.std.specs.Prelude.{◌≡◌, ◌/◌, ◌%◌, ◌^◌, if◌then◌else◌, slice_index_or};
ghost use Rattle.hist_model.specs.Filters as definitions;
ghost use Rattle.hist_model.specs.Filters.{run_from};
ghost use Rattle.bpf_filter.specs.Outcomes.{effect};
ghost use Rattle.bpf_filter.specs.declared.machine.Outcome.TheVariants.{Skips};

use hist_model::filter::Operation;
use hist_model::script::Insn;
use sys_abi::wire::SeccompData;

/// The operation of a code.
pub fn operation(code: u16) -> Operation
    ensures { result ≡ definitions.operation code }
{
    match code {
        0x20 => Operation::Load,
        0x00 => Operation::Immediate,
        0x04 => Operation::Add,
        0x14 => Operation::Subtract,
        0x44 => Operation::Or,
        0x54 => Operation::And,
        0xa4 => Operation::Xor,
        0x64 => Operation::ShiftLeft,
        0x74 => Operation::ShiftRight,
        0x84 => Operation::Negate,
        0x05 => Operation::Jump,
        0x15 => Operation::JumpEqual,
        0x25 => Operation::JumpGreater,
        0x35 => Operation::JumpAtLeast,
        0x45 => Operation::JumpSet,
        0x06 => Operation::Return,
        _ => Operation::Unknown,
    }
}

/// The lower 32 bits of a number.
fn low(number: u64) -> u32
    ensures { result ≡ number % 2 ^ 32 }
{
    (number % (1 << 32)) as u32
}

/// The upper 32 bits of a number.
fn high(number: u64) -> u32
    ensures { result ≡ number / 2 ^ 32 }
{
    (number >> 32) as u32
}

/// The words of a call's data, of four bytes each.
pub type Words = [u32; 16];

/// The sixteen little-endian words of a call's data (seccomp(2), struct seccomp_data).
pub fn words(call: &SeccompData) -> Words
    ensures { result ≡ definitions.words call.now }
{
    let args = &call.args;
    [
        call.nr.cast_unsigned(),
        call.arch,
        low(call.ip),
        high(call.ip),
        low(args[0]),
        high(args[0]),
        low(args[1]),
        high(args[1]),
        low(args[2]),
        high(args[2]),
        low(args[3]),
        high(args[3]),
        low(args[4]),
        high(args[4]),
        low(args[5]),
        high(args[5]),
    ]
}

/// The word at an offset of the call's data, and 0 behind the last one.
fn word(words: &Words, offset: u32) -> u32
    ensures { result ≡ slice_index_or words.now (offset / 4) 0 }
{
    match words.get(offset as usize / 4) {
        Some(word) => *word,
        None => 0,
    }
}

/// What an instruction comes to. What it doesn't name stays.
enum Outcome {
    /// The filter answers this.
    Answers(u32),
    /// The accumulator becomes this, and the next instruction follows.
    Computes(u32),
    /// So many of the instructions that follow are skipped.
    Skips(u32),
}

/// A jump by a test.
fn jumps(insn: &Insn, holds: bool) -> Outcome
    ensures { result ≡ Skips (if holds then insn.now.jt else insn.now.jf) }
{
    if holds {
        Outcome::Skips(insn.jt as u32)
    } else {
        Outcome::Skips(insn.jf as u32)
    }
}

/// What an instruction does with the accumulator, where these are the words of the call's data.
#[tactic(auto, using(crate::proofs::Runs::wide_shift_left, crate::proofs::Runs::wide_shift_right))]
fn step(words: &Words, insn: &Insn, a: u32) -> Outcome
    ensures { effect result a ≡ definitions.step words.now insn.now a }
{
    match operation(insn.code) {
        Operation::Load => Outcome::Computes(word(words, insn.k)),
        Operation::Immediate => Outcome::Computes(insn.k),
        Operation::Add => Outcome::Computes(a.wrapping_add(insn.k)),
        Operation::Subtract => Outcome::Computes(a.wrapping_sub(insn.k)),
        Operation::Or => Outcome::Computes(a | insn.k),
        Operation::And => Outcome::Computes(a & insn.k),
        Operation::Xor => Outcome::Computes(a ^ insn.k),
        Operation::ShiftLeft => Outcome::Computes(a.checked_shl(insn.k).unwrap_or(0)),
        Operation::ShiftRight => Outcome::Computes(a.checked_shr(insn.k).unwrap_or(0)),
        Operation::Negate => Outcome::Computes(0u32.wrapping_sub(a)),
        Operation::Jump => Outcome::Skips(insn.k),
        Operation::JumpEqual => jumps(insn, a == insn.k),
        Operation::JumpGreater => jumps(insn, a > insn.k),
        Operation::JumpAtLeast => jumps(insn, a >= insn.k),
        Operation::JumpSet => jumps(insn, a & insn.k != 0),
        Operation::Return => Outcome::Answers(insn.k),
        Operation::Unknown => Outcome::Answers(0),
    }
}

/// The answer of some instructions, where these are the words of the call's data; where they end without one it is 0.
#[tactic(auto, using(crate::proofs::Runs::run_next, crate::proofs::Runs::run_jumps, crate::proofs::Runs::run_ends, crate::proofs::Runs::run_past))]
pub fn run_insns(insns: &[Insn], words: &Words) -> u32
    ensures { result ≡ run_from words.now insns.now 0 0 }
{
    let mut place: usize = 0;
    let mut a = 0;
    while place < insns.len() {
        let outcome = step(words, &insns[place], a);
        place += 1;
        match outcome {
            Outcome::Answers(value) => return value,
            Outcome::Computes(value) => a = value,
            Outcome::Skips(count) => place += count as usize,
        }
    }
    0
}
