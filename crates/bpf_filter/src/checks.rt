//! Which filters are accepted.

ghost use Rattle.std.specs.Prelude.{◌≡◌, ◌≤◌, ◌<◌, length};
ghost use Rattle.hist_model.specs.Filters as definitions;

use crate::machine::operation;
use crate::numbers::{ACTION, TRAP};
use hist_model::filter::{BadFilter, FilterReason, Operation};
use hist_model::script::Insn;

/// The most instructions of a filter (BPF_MAXINSNS).
const MOST_INSNS: usize = 4096;

fn fault_if(wrong: bool, reason: FilterReason) -> Option<FilterReason>
    ensures { result ≡ definitions.fault_if wrong reason }
{
    if wrong { Some(reason) } else { None }
}

/// What is wrong with an instruction that `left` instructions follow.
fn insn_fault(insn: Insn, left: usize) -> Option<FilterReason>
    ensures { result ≡ definitions.insn_fault insn left }
{
    match operation(insn.code) {
        Operation::Load => fault_if(insn.k > 60 || insn.k % 4 != 0, FilterReason::BadLoad),
        Operation::ShiftLeft | Operation::ShiftRight => fault_if(
            insn.k >= 32,
            FilterReason::BadShift,
        ),
        Operation::Jump => fault_if(insn.k as usize >= left, FilterReason::BadJump),
        Operation::JumpEqual
        | Operation::JumpGreater
        | Operation::JumpAtLeast
        | Operation::JumpSet => fault_if(
            insn.jt as usize >= left || insn.jf as usize >= left,
            FilterReason::BadJump,
        ),
        Operation::Return => fault_if(insn.k & ACTION == TRAP, FilterReason::BadAction),
        Operation::Unknown => Some(FilterReason::BadCode),
        _ => None,
    }
}

/// The first fault of an instruction.
#[tactic(auto, using(crate::proofs::Faults::faults_here, crate::proofs::Faults::faults_later, crate::proofs::Faults::faults_none))]
fn fault_among(insns: &[Insn]) -> Option<BadFilter>
    requires { length insns.now ≤ 4096 }
    ensures { result ≡ definitions.fault_among 0 insns.now }
{
    for place in 0..insns.len() {
        if let Some(reason) = insn_fault(insns[place], insns.len() - (place + 1)) {
            return Some(BadFilter {
                at: place as u32,
                reason,
            });
        }
    }
    None
}

/// The fault of a filter that doesn't end with a return.
fn end_fault(insns: &[Insn]) -> Option<BadFilter>
    requires some { 0 < length insns.now }
    requires few { length insns.now ≤ 4096 }
    ensures { result ≡ definitions.end_fault insns.now }
{
    let last = insns.len() - 1;
    if let Operation::Return = operation(insns[last].code) {
        return None;
    }
    Some(BadFilter {
        at: last as u32,
        reason: FilterReason::NoReturn,
    })
}

/// The first fault of a filter.
pub fn first_fault(insns: &[Insn]) -> Option<BadFilter>
    ensures { result ≡ definitions.first_fault insns.now }
{
    if insns.is_empty() {
        return Some(BadFilter {
            at: 0,
            reason: FilterReason::Empty,
        });
    }
    if insns.len() > MOST_INSNS {
        return Some(BadFilter {
            at: MOST_INSNS as u32,
            reason: FilterReason::TooMany,
        });
    }
    match fault_among(insns) {
        Some(fault) => Some(fault),
        None => end_fault(insns),
    }
}
