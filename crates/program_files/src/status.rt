//! How the program ends.

ghost use Rattle.std.specs.Prelude.{◌≡◌};
ghost use Rattle.program_files.specs.Codes.{code_of, code_of_refusal};

use audit_log::error::ReportError;
use call_lines::CallsError;
use policy_reader::PolicyError;
use script_reader::ScriptError;
use sys_abi::memory;

/// A file that the program reads.
#[derive(Clone, Copy, PartialEq, Eq, Debug)]
pub enum InputFile {
    Policy,
    /// The policy that would take the other's place.
    NewPolicy,
    Script,
    Report,
    /// The calls that are explained.
    Calls,
    /// The claims that are checked.
    Claims,
    /// The requests of `step`: the standard input.
    Requests,
}

/// Why a file wasn't taken.
#[derive(PartialEq, Eq, Debug, Drop)]
pub enum Refusal {
    /// It couldn't be read.
    ReadFault(InputFile),
    /// It has more bytes than it may have: 1,048,576 of a policy and of claims, 8,388,608 of a script and of calls, 33,554,432 of a
    /// report.
    TooLong(InputFile),
    /// The policy is refused.
    BadPolicy(PolicyError),
    /// The policy that would take the other's place is refused.
    BadNewPolicy(PolicyError),
    /// The claims are refused.
    BadClaims(PolicyError),
    /// The script is refused.
    BadScript(ScriptError),
    /// The calls are refused.
    BadCalls(CallsError),
    /// The script's schedule says what the workers of another broker ask for, and they would have to be replaced.
    HasRequests,
}

impl Refusal {
    /// The exit status.
    fn code(&self) -> u8
        ensures { result ≡ code_of_refusal self.now }
    {
        match self {
            Refusal::ReadFault(_) => 2,
            Refusal::TooLong(_) => 3,
            Refusal::BadPolicy(_) | Refusal::BadNewPolicy(_) | Refusal::BadClaims(_) => 4,
            Refusal::BadScript(_) | Refusal::BadCalls(_) | Refusal::HasRequests => 5,
        }
    }
}

/// How the program ends.
#[derive(PartialEq, Eq, Debug, Drop)]
pub enum Status {
    /// What is printed was written whole.
    Done,
    /// The words have none of the forms.
    Usage,
    /// A file wasn't taken.
    Refused(Refusal),
    /// A file of one of several containers wasn't taken: the container's number, counted from 0.
    ContainerRefused { container: u8, refusal: Refusal },
    /// What is printed couldn't be written.
    WriteFault,
    /// There was no memory.
    NoMemory,
    /// The file isn't a report: the number of the first line that can't be right, counted from 1, or one more than the number
    /// of lines.
    NotReport { line: u32 },
    /// The ranges of PIDs of two containers' scripts share a number: the first two containers of which that is so.
    PidsOverlap { first: u8, second: u8 },
    /// What was told is that the policies differ, that a claim is refuted, or that something is likely a mistake.
    Otherwise,
    /// Not all calls were looked at, and of those that were nothing of the kind was told.
    Undecided,
}

impl Status {
    /// The exit status.
    pub fn code(&self) -> u8
        ensures { result ≡ code_of self.now }
    {
        match self {
            Status::Done => 0,
            Status::Usage => 1,
            Status::Refused(refusal) => refusal.code(),
            Status::ContainerRefused { refusal, .. } => refusal.code(),
            Status::WriteFault => 6,
            Status::NoMemory => 7,
            Status::NotReport { .. } => 9,
            Status::PidsOverlap { .. } => 10,
            Status::Otherwise => 11,
            Status::Undecided => 12,
        }
    }
}

impl From<memory::NoMemory> for Status {
    ghost use Rattle.std.specs.Prelude.{◌≡◌};
    ghost use Rattle.program_files.specs.declared.status.Status.TheVariants.{NoMemory};

    ghost from_gives = { λ _ s. s ≡ NoMemory };

    fn from(_error: memory::NoMemory) -> Status {
        Status::NoMemory
    }
}

impl From<ReportError> for Status {
    ghost use Rattle.std.specs.Prelude.{◌≡◌};
    ghost use Rattle.program_files.specs.Codes.{status_of_report};

    ghost from_gives = { λ e s. s ≡ status_of_report e };

    fn from(error: ReportError) -> Status {
        match error {
            ReportError::WriteFault => Status::WriteFault,
            ReportError::NoMemory => Status::NoMemory,
        }
    }
}
