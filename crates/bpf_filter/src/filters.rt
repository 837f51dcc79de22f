//! Filters that were accepted.

ghost use Rattle.std.specs.Prelude.{◌≡◌, ◌+◌, ◌≤◌, ◌==◌, ◌++◌, length, true, false, vec_len, vec_capacity, MatchResult, IfOk, None, Some};
ghost use Rattle.hist_model.specs.Filters as definitions;
ghost use Rattle.bpf_filter.specs.Accepted.{IsAccepted, IsFirstFault, has_return};

use crate::checks::first_fault;
use crate::machine::{run_insns, words};
use crate::numbers::{ALLOW, ARCH, JUMP_EQUAL, KILL_PROCESS, LOAD, RETURN, USER_NOTIF};
use hist_model::filter::BadFilter;
use hist_model::script::Insn;
use std::alloc::Global;
use std::marker::Model;
use sys_abi::memory::NoMemory;
use sys_abi::wire::SeccompData;

/// A filter that was accepted. Contracts see it as its instructions.
#[derive(Debug, Drop)]
pub struct Filter {
    insns: Vec<Insn>,
}

impl Model for Filter {
    ghost use Rattle.std.specs.Prelude.{List, ◌≡◌, None};
    ghost use Rattle.hist_model.specs.declared.script.Insn.{Insn};
    ghost use Rattle.hist_model.specs.Filters.{first_fault};

    ghost Value = { List Insn };

    ghost view = { λ f. f.insns.items };

    ghost invariant = { λ f. first_fault f.insns.items ≡ None };
}

impl Filter {
    /// The filter of these instructions, or their first fault.
    #[tactic(auto, using(crate::proofs::Firsts::accepted, crate::proofs::Firsts::first_found))]
    pub fn check(insns: Vec<Insn>) -> Result<Filter, BadFilter>
        ensures cases { MatchResult result (λ f. definitions.first_fault insns.items ≡ None) (λ e. definitions.first_fault insns.items ≡ Some e) }
        ensures first { MatchResult result (λ f. IsAccepted insns.items) (λ e. IsFirstFault insns.items e) }
        ensures same { IfOk result (λ f. f ≡ insns.items) }
    {
        match first_fault(&insns) {
            Some(fault) => Err(fault),
            None => Ok(Filter { insns }),
        }
    }

    /// Its instructions, given back without taking memory.
    pub fn into_insns(self) -> Vec<Insn>
        ensures same { result.items ≡ self }
        ensures accepted { definitions.first_fault result.items ≡ None }
    {
        let Filter { insns } = self;
        insns
    }
}

/// The answer of a filter to a call, which is that of one of its returns, and never SECCOMP_RET_TRAP. No memory is taken.
#[tactic(auto, using(crate::proofs::Returns::run_returns, crate::proofs::Returns::run_never_traps))]
pub fn run(filter: &Filter, call: &SeccompData) -> u32
    ensures answered { result ≡ definitions.run filter.now call.now }
    ensures returned { has_return filter.now result ≡ true }
    ensures never_traps { (definitions.action result == 0x00030000) ≡ false }
{
    run_insns(&filter.insns, &words(call))
}

fn insn(code: u16, k: u32, jt: u8) -> Insn
    ensures { result ≡ definitions.insn code k jt 0 }
{
    Insn { code, jt, jf: 0, k }
}

/// The filter that kills on another architecture, notifies on these calls, at most 64, and allows all others.
pub fn notify_on(alloc: Global, calls: &[i32]) -> Result<Filter, NoMemory>
    requires { length calls.now ≤ 64 }
    ensures insns { IfOk result (λ f. f ≡ definitions.notify_filter calls.now) }
    ensures answers { IfOk result (λ f. (call : SeccompData) → definitions.run f call ≡ definitions.notify_answer calls.now call) }
{
    let mut insns = Vec::with_capacity(alloc, 6 + calls.len())?;
    insns.push_reserved(insn(LOAD, 4, 0));
    insns.push_reserved(insn(JUMP_EQUAL, ARCH, 1));
    insns.push_reserved(insn(RETURN, KILL_PROCESS, 0));
    insns.push_reserved(insn(LOAD, 0, 0));
    push_call_tests(&mut insns, calls);
    Ok(Filter { insns })
}

/// Adds the tests that notify on these calls, and allow all others.
fn push_call_tests(insns: &mut Vec<Insn>, calls: &[i32])
    requires few { length calls.now ≤ 64 }
    requires room { vec_len insns.old + length calls.now + 2 ≤ vec_capacity insns.old }
    ensures { insns.new.items ≡ insns.old.items ++ definitions.call_tests calls.now }
{
    for place in 0..calls.len() {
        insns.push_reserved(insn(
            JUMP_EQUAL,
            calls[place].cast_unsigned(),
            (calls.len() - place) as u8,
        ));
    }
    insns.push_reserved(insn(RETURN, ALLOW, 0));
    insns.push_reserved(insn(RETURN, USER_NOTIF, 0));
}
