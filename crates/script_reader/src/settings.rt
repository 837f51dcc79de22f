//! The settings that are single values.

ghost use Rattle.std.specs.Prelude.{◌≡◌, Some, true};
ghost use Rattle.script_reader.specs.Faults.{Judges, duplicate};
ghost use Rattle.script_reader.specs.Settings as definitions;

use crate::error::Fault;
use crate::fault::wrong_if;
use hist_model::request::NodeRef;
use hist_model::script::Figures;
use lex_core::Reason;

/// How many PIDs there are where no line says it.
const PIDMAX: u32 = 32_768;

/// The greatest PID (PID_MAX_LIMIT).
const GREATEST_PID: u64 = 4_194_304;

/// The limits of the control groups of a container (cgroups(7)): the smallest of all, and those of the host.
#[derive(Clone, Copy)]
pub struct Limits {
    pub memory: u64,
    pub swap: u64,
    pub host_memory: u64,
    pub host_swap: u64,
}

/// The settings that are single values. None where no line states one.
#[derive(Clone, Copy)]
pub struct Settings {
    pub pidmax: Option<u32>,
    pub pidbase: Option<u32>,
    pub firstid: Option<u64>,
    pub rlimit: Option<u32>,
    pub killable: bool,
    pub root: Option<NodeRef>,
    pub figures: Option<Figures>,
    pub limits: Option<Limits>,
}

/// What a stated path leads to.
#[derive(Clone, Copy)]
pub struct PathTarget {
    pub node: NodeRef,
    pub directory: bool,
}

/// No line states one.
pub fn no_settings() -> Settings
    ensures { result ≡ definitions.no_settings }
{
    Settings {
        pidmax: None,
        pidbase: None,
        firstid: None,
        rlimit: None,
        killable: false,
        root: None,
        figures: None,
        limits: None,
    }
}

/// Refuses a setting that stands again.
pub fn refuse_again(again: bool) -> Result<(), Fault>
    ensures { Judges (duplicate again) result }
{
    wrong_if(again, Reason::Duplicate)
}

/// How many PIDs there are.
pub fn pidmax_of(settings: &Settings) -> u32
    ensures { result ≡ definitions.pidmax_of settings.now }
{
    settings.pidmax.unwrap_or(PIDMAX)
}

/// Refuses a base with which the numbers end above 4194304 (`OutOfRange`), and one that stands again.
pub fn refuse_pidbase(settings: &Settings, base: u32) -> Result<(), Fault>
    ensures { Judges (definitions.pidbase_fault settings.now base) result }
{
    let greatest = base as u64 + pidmax_of(settings) as u64;
    wrong_if(greatest > GREATEST_PID, Reason::OutOfRange)?;
    refuse_again(settings.pidbase.is_some())
}

/// The limits with those of one more control group.
pub fn with_group(memory: u64, swap: u64, limits: Option<Limits>) -> Limits
    ensures { result ≡ definitions.with_group memory swap limits }
{
    match limits {
        None => Limits {
            memory,
            swap,
            host_memory: memory,
            host_swap: swap,
        },
        Some(limits) => Limits {
            memory: limits.memory.min(memory),
            swap: limits.swap.min(swap),
            ..limits
        },
    }
}

/// No limits.
const NO_LIMITS: Limits = Limits {
    memory: 0,
    swap: 0,
    host_memory: 0,
    host_swap: 0,
};

/// What sysinfo(2) tells of the container.
pub fn figures_of(settings: &Settings) -> Figures
    ensures { result ≡ definitions.figures_of settings.now }
{
    let figures = settings.figures.unwrap_or(Figures::NONE);
    let limits = settings.limits.unwrap_or(NO_LIMITS);
    Figures {
        memory: limits.memory,
        swap: limits.swap,
        host_memory: limits.host_memory,
        host_swap: limits.host_swap,
        ..figures
    }
}
