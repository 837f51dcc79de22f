//! The top call over files and sinks in memory.

use broker_app::broker::broker;
use crew::Gate;
use io_edge::memory::{MemFiles, MemSink};
use program_files::status::Status;
use std::alloc::Global;
use std::sync::Wait;
use std::test::Fail;
use std::thread::Threads;

/// The size of the sinks, in bytes.
const ROOM: usize = 65536;

/// A file of this name with these bytes.
fn file(alloc: Global, name: &str, bytes: &str) -> Result<(String, Vec<u8>), Fail> {
    Ok((
        String::from_str(alloc, name)?,
        bytes.as_bytes().to_vec(alloc)?,
    ))
}

/// What the program is given: its words, its files `p` and `s`, and which call of the files and which write to `out` and to `err`
/// fails, counted from 1; none is 0.
#[derive(Clone, Copy)]
pub(crate) struct Given<'a> {
    pub(crate) words: &'a [&'a str],
    pub(crate) policy: &'a str,
    pub(crate) script: &'a str,
    pub(crate) failing_call: u64,
    pub(crate) failing_write: u64,
    pub(crate) failing_line: u64,
}

/// This policy and this script, with these words, where nothing fails.
pub(crate) const fn sound<'a>(words: &'a [&'a str], policy: &'a str, script: &'a str) -> Given<'a> {
    Given {
        words,
        policy,
        script,
        failing_call: 0,
        failing_write: 0,
        failing_line: 0,
    }
}

/// What came of a run.
#[derive(Drop)]
pub(crate) struct Answer {
    pub(crate) status: Status,
    pub(crate) out: MemSink,
    pub(crate) err: MemSink,
}

/// Runs the program, whose workers call this gate.
pub(crate) fn run<R: Threads + Wait + Sync, G: Gate + Sync>(
    rt: &R,
    alloc: Global,
    given: Given<'_>,
    gate: &G,
) -> Result<Answer, Fail> {
    let listed = vec![in alloc;
        file(alloc, "p", given.policy)?,
        file(alloc, "s", given.script)?,
    ]?;
    let mut files = MemFiles::new(listed, vec![in alloc; given.failing_call]?);
    let mut out = MemSink::new(alloc, ROOM, vec![in alloc; given.failing_write]?)?;
    let mut err = MemSink::new(alloc, ROOM, vec![in alloc; given.failing_line]?)?;
    let mut words = Vec::new(alloc);
    for word in given.words {
        words.push(String::from_str(alloc, word)?)?;
    }
    let status = broker(
        rt,
        alloc,
        words.as_slice(),
        &mut files,
        &mut out,
        &mut err,
        gate,
    );
    Ok(Answer { status, out, err })
}
