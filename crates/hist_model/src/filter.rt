//! What a filter's instructions do, and why a filter is refused.

/// What an instruction of a filter does (bpf(4)). The accumulator is a number of 32 bits.
#[derive(Clone, Copy, PartialEq, Eq, Debug)]
pub enum Operation {
    /// Loads the little-endian word of the call's data at an offset.
    Load,
    /// Loads the instruction's number.
    Immediate,
    Add,
    Subtract,
    Or,
    And,
    Xor,
    ShiftLeft,
    ShiftRight,
    /// Subtracts the accumulator from 0.
    Negate,
    /// Skips instructions.
    Jump,
    /// Skips instructions by whether the accumulator is the number.
    JumpEqual,
    /// Skips instructions depending on whether it is greater.
    JumpGreater,
    /// By whether it is greater or equal.
    JumpAtLeast,
    /// By whether it has one of the number's bits.
    JumpSet,
    /// Answers the instruction's number.
    Return,
    /// No instruction has this code.
    Unknown,
}

/// How an instruction goes on.
#[derive(Clone, Copy, PartialEq, Eq, Debug)]
pub enum Effect {
    /// The filter answers this.
    Answers(u32),
    /// So many of the instructions that follow are skipped.
    Goes { skipped: u32, accumulator: u32 },
}

/// What is wrong with a filter (bpf(4), seccomp(2)).
#[derive(Clone, Copy, PartialEq, Eq, Debug)]
pub enum FilterReason {
    /// It has no instruction.
    Empty,
    /// It has more than 4096 instructions.
    TooMany,
    /// The instruction's code isn't known.
    BadCode,
    /// A load isn't of an aligned word of the call's data.
    BadLoad,
    /// A shift is by 32 or more.
    BadShift,
    /// A jump leads out of the filter.
    BadJump,
    /// It returns SECCOMP_RET_TRAP.
    BadAction,
    /// The last instruction isn't a return.
    NoReturn,
}

/// The first fault of a filter, and the place of its instruction, from 0.
#[derive(Clone, Copy, PartialEq, Eq, Debug)]
pub struct BadFilter {
    pub at: u32,
    pub reason: FilterReason,
}
