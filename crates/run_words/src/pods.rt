//! Containers that are served side by side: the reading of their policies and scripts, and whether their ranges of PIDs overlap.

ghost use Rattle.std.specs.Prelude.{◌≡◌, ◌+◌, ◌<◌, ◌≤◌, ◌++◌, ◌∷◌, [], true, length, IfOk, IfErr, IfSome, IfNone, OnOk};
ghost use Rattle.io_edge.specs.FileState.{SameFiles};
ghost use Rattle.pod_broker.specs.Pods.{NoneOverlap, overlap};
ghost use Rattle.pod_broker.specs.Serving.{scripts};
ghost use Rattle.run_words.specs.Pairs.{texts};
ghost use Rattle.run_words.specs.Pairs.{are_pairs, in_pairs};
ghost use Rattle.run_words.specs.Pods.{AreSeparate, AreTaken, ContainerStops, IsFirstBehind, IsFirstOverlap, IsSeparateBehind, IsTaken, OverlapIsOne, Overlapping, PairStops, SeparateDontOverlap, in_container};

use hist_model::script::Script;
use io_edge::files::Files;
use pod_broker::Container;
use program_files::inputs::read_inputs;
use program_files::status::Status;
use std::alloc::Global;
use sys_abi::memory::NoMemory;

/// The status of a container with this number, where it is one of several.
fn in_container(container: u8, status: Status) -> Status
    ensures { result ≡ in_container container status }
{
    match status {
        Status::Refused(refusal) => Status::ContainerRefused { container, refusal },
        status => status,
    }
}

/// Reads the policy and the script of the container with this number.
#[tactic(auto, using(crate::proofs::Containers::container_stops))]
fn read_container<F: Files>(
    alloc: Global,
    files: &mut F,
    container: u8,
    policy: &str,
    script: &str,
) -> Result<Container, Status>
    ensures same { SameFiles (F.state files.old) (F.state files.new) }
    ensures read { IfOk result (λ c. IsTaken (F.state files.old) (record { policy = policy.now; script = script.now }) c) }
    ensures refused { IfErr result (λ s. ContainerStops (F.state files.old) (F.state files.new) (record { policy = policy.now; script = script.now }) container s) }
{
    match read_inputs(alloc, files, policy, script) {
        Ok((policy, script)) => Ok(Container { policy, script }),
        Err(status) => Err(in_container(container, status)),
    }
}

/// Keeps one more container.
fn keep(containers: &mut Vec<Container>, container: Container) -> Result<(), NoMemory>
    ensures { OnOk result (containers.new.items ≡ containers.old.items ++ container ∷ []) }
{
    containers.push(container)?;
    Ok(())
}

/// Reads the policies and the scripts of these names, in pairs and in order.
pub fn read_containers<F: Files>(
    alloc: Global,
    files: &mut F,
    names: &[String],
) -> Result<Vec<Container>, Status>
    requires pairs { are_pairs (length names.now) ≡ true }
    ensures same { SameFiles (F.state files.old) (F.state files.new) }
    ensures read { IfOk result (λ v. AreTaken (F.state files.old) (in_pairs (texts names.now)) v.items) }
    ensures few { IfOk result (λ v. length v.items ≤ 8) }
    ensures refused { IfErr result (λ s. PairStops (F.state files.old) (F.state files.new) (in_pairs (texts names.now)) s) }
{
    let mut containers = Vec::new(alloc);
    let mut rest = names;
    let mut number = 0;
    while let [policy, script, more @ ..] = rest {
        let container = read_container(alloc, files, number, policy.as_str(), script.as_str())?;
        keep(&mut containers, container)?;
        rest = more;
        number += 1;
    }
    Ok(containers)
}

/// The end of a script's range of PIDs, its last one.
fn last_pid(script: &Script) -> u64
    ensures { result ≡ script.now.pidbase + script.now.pidmax }
{
    u64::from(script.pidbase) + u64::from(script.pidmax)
}

/// Whether the ranges of PIDs of two scripts share a number.
fn overlap(one: &Script, other: &Script) -> bool
    ensures { result ≡ overlap one.now other.now }
{
    u64::from(one.pidbase) < last_pid(other) && u64::from(other.pidbase) < last_pid(one)
}

/// The first container behind this one whose range overlaps its range.
fn first_behind(containers: &[Container], first: usize) -> Option<usize>
    requires { first < length containers.now }
    ensures found { IfSome result (λ second. IsFirstBehind containers.now first second) }
    ensures none { IfNone result (IsSeparateBehind containers.now first (length containers.now)) }
{
    for second in first + 1..containers.len() {
        if overlap(&containers[first].script, &containers[second].script) {
            return Some(second);
        }
    }
    None
}

/// The first two containers whose ranges overlap: the first one that has another behind it, and the first of those.
fn first_overlap(containers: &[Container]) -> Option<(usize, usize)>
    ensures found { IfSome result (λ places. IsFirstOverlap containers.now places.0 places.1) }
    ensures none { IfNone result (AreSeparate containers.now (length containers.now)) }
{
    for first in 0..containers.len() {
        if let Some(second) = first_behind(containers, first) {
            return Some((first, second));
        }
    }
    None
}

/// Refuses containers whose ranges of PIDs overlap.
#[tactic(auto, using(crate::proofs::Containers::none_overlap))]
pub fn see_ranges(containers: &[Container]) -> Result<(), Status>
    requires few { length containers.now ≤ 8 }
    ensures separate { OnOk result (NoneOverlap (scripts containers.now)) }
    ensures refused { IfErr result (λ s. Overlapping containers.now s) }
{
    match first_overlap(containers) {
        None => Ok(()),
        Some((first, second)) => Err(Status::PidsOverlap {
            first: first as u8,
            second: second as u8,
        }),
    }
}

/// Two containers are the first ones whose ranges overlap only if no other two are, and if some ranges overlap at all.
pub fn first_overlap_is_one()
    ensures one { OverlapIsOne }
    ensures none { SeparateDontOverlap }
{}
