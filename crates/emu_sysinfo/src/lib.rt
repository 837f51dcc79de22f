//! The 112 bytes of sysinfo(2).
//!
//! A container that a rule grants sysinfo is told its own limits, the smallest of its control groups; natively a call is
//! told the host's. What is told is defined in the file `Sysinfo` of `hist_model`'s specs, and this layer has no state. Below
//! stand the plain type of the figures and the structure of `sys_abi`; above stand the kernel, which writes the host's bytes,
//! and the worker's machine, which writes the container's.
#![tactic(auto)]

ghost use Rattle.std.specs.Prelude.{◌≡◌};
ghost use Rattle.hist_model.specs.Sysinfo.{container_sysinfo, host_sysinfo, told};

use hist_model::script::Figures;
use sys_abi::wire::Sysinfo;

/// What a container is told: its limits, and of them what isn't used, not below 0.
#[tactic(auto, unfolding(hist_model::specs::Sysinfo::container_sysinfo))]
pub fn container(f: &Figures) -> [u8; 112]
    ensures { result ≡ container_sysinfo f.now }
{
    told(f, f.memory, f.swap).to_bytes()
}

/// What the host tells: its limits, and of them what isn't used, not below 0.
#[tactic(auto, unfolding(hist_model::specs::Sysinfo::host_sysinfo))]
pub fn host(f: &Figures) -> [u8; 112]
    ensures { result ≡ host_sysinfo f.now }
{
    told(f, f.host_memory, f.host_swap).to_bytes()
}

/// The structure for these totals of memory and swap.
fn told(f: &Figures, memory: u64, swap: u64) -> Sysinfo
    ensures { result ≡ told f.now memory swap }
{
    Sysinfo {
        uptime: f.uptime,
        loads: [0; 3],
        totalram: memory,
        freeram: memory.saturating_sub(f.used),
        sharedram: f.shared,
        bufferram: f.buffers,
        totalswap: swap,
        freeswap: swap.saturating_sub(f.swap_used),
        procs: f.procs,
        totalhigh: 0,
        freehigh: 0,
        mem_unit: 1,
    }
}
