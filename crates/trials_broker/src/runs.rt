//! The top call over files and sinks in memory, where a call of the files or a write fails.

use crate::inputs::MAKES_NODES;
use crate::top_call::{Given, run, sound};
use crew::OpenGate;
use program_files::status::{InputFile, Refusal, Status};
use std::alloc::Global;
use std::process::Abort;
use std::sync::Wait;
use std::test::Fail;
use std::thread::Threads;

const SCRIPT: &str =
    "notify mknod\nprog main\npoke 0x10000 \"/null\\0\"\ncall mknod 0x10000 0o020666 259\nend\nschedule\nt 0 2\nw 0 9\nt 0 2\nend\n";

/// The lines of the report of this script under this policy, worked out by hand.
const REPORT: [&'static str; 21] = [
    "journal 15\n",
    "0 - spawn 0 pid=1 new\n",
    "1 t0 poke 65536 2f6e756c6c00\n",
    "2 t0 call mknod 65536 8630 259 0 0 0 notify id=1\n",
    "3 w0 recv id=1 pid=1\n",
    "4 w0 open-mem 1 ok\n",
    "5 w0 open-base 1 -100 ok\n",
    "6 w0 check 1 ok\n",
    "7 w0 read 65536 256 2f6e756c6c\n",
    "8 w0 check 1 ok\n",
    "9 w0 act mknod \"/null\" chr 1:3 ok\n",
    "10 w0 send 1 0 ok\n",
    "11 w0 let-go\n",
    "12 t0 resume 0\n",
    "13 t0 exit\n",
    "14 listener close\n",
    "calls 1\n",
    "2 t0 pid=1 mknod 0\n",
    "audit 1\n",
    "3 w0 id=1 mknod rule=lxd.mknod.1:3 verdict=grant answer=0 reply=sent\n",
    "summary events=15 calls=1 notified=1 answered=1 granted=1 denied=0 passed=0 injected=0 faults=0 gone=0 lost=0\n",
];

/// The words that play this script under this policy.
const PLAY: [&'static str; 3] = ["play", "p", "s"];

/// The words that play generated input of three calls: one is passed, one is granted, and the task of one is killed.
const STRESS: [&'static str; 3] = ["stress", "7", "3"];

/// Its summary, worked out by hand.
const SUMMARY: &str =
    "summary events=40 calls=3 notified=3 answered=2 granted=1 denied=0 passed=1 injected=0 faults=0 gone=1 lost=0\n";

/// What a run is to answer: its status with its code, the line on `err`, and what `out` took.
#[derive(Drop)]
struct Want<'a> {
    status: Status,
    code: u8,
    line: &'a str,
    report: &'a str,
}

/// Sees that the program answers what it is to answer.
fn check<R: Abort + Threads + Wait + Sync>(
    rt: &R,
    alloc: Global,
    given: Given<'_>,
    want: Want<'_>,
) -> Result<(), Fail> {
    let answer = run(rt, alloc, given, &OpenGate)?;
    assert_eq!(rt; answer.status.code(), want.code);
    assert_eq!(rt; answer.status, want.status);
    assert_eq!(rt; answer.err.taken(), want.line.as_bytes());
    assert_eq!(rt; answer.out.taken(), want.report.as_bytes());
    Ok(())
}

/// The whole of what is printed.
fn done(report: &str) -> Want<'_> {
    Want {
        status: Status::Done,
        code: 0,
        line: "",
        report,
    }
}

/// No report, since a call on this file failed.
fn read_fault(file: InputFile, line: &str) -> Want<'_> {
    Want {
        status: Status::Refused(Refusal::ReadFault(file)),
        code: 2,
        line,
        report: "",
    }
}

/// This part of the report, since a write failed.
fn write_fault(report: &str) -> Want<'_> {
    Want {
        status: Status::WriteFault,
        code: 6,
        line: "write fault\n",
        report,
    }
}

#[test]
fn names_the_file_that_a_call_failed_on(rt: HostRuntime) -> Result<(), Fail> {
    // The first call opens the policy, the next two read it, and then comes the script.
    for failing_call in 1..7 {
        let want = if failing_call < 4 {
            read_fault(InputFile::Policy, "read fault: policy\n")
        } else {
            read_fault(InputFile::Script, "read fault: script\n")
        };
        let play = Given {
            failing_call,
            ..sound(&PLAY, MAKES_NODES, SCRIPT)
        };
        check(&rt, rt.alloc(), play, want)?;
    }
    Ok(())
}

#[test]
fn leaves_the_lines_before_a_write_that_fails(rt: HostRuntime) -> Result<(), Fail> {
    let alloc = rt.alloc();
    let mut before = String::new(alloc);
    for place in 0..REPORT.len() {
        let play = Given {
            failing_write: place as u64 + 1,
            ..sound(&PLAY, MAKES_NODES, SCRIPT)
        };
        check(&rt, alloc, play, write_fault(before.as_str()))?;
        before.push_str(REPORT[place])?;
    }
    check(
        &rt,
        alloc,
        sound(&PLAY, MAKES_NODES, SCRIPT),
        done(before.as_str()),
    )
}

#[test]
fn prints_the_summary_of_generated_input(rt: HostRuntime) -> Result<(), Fail> {
    let stress = sound(&STRESS, MAKES_NODES, SCRIPT);
    check(&rt, rt.alloc(), stress, done(SUMMARY))?;
    let stress = Given {
        failing_write: 1,
        ..stress
    };
    check(&rt, rt.alloc(), stress, write_fault(""))
}

/// A policy with an error that has no number.
const UNKNOWN_ERROR: &str =
    "{\"rules\":[{\"name\":\"a\",\"call\":\"mount\",\"then\":{\"deny\":\"EWHAT\"}}]}";

/// What is refused: the names of the files, the policy and the script, with the code of the status and the line.
const REFUSALS: [([&'static str; 2], [&'static str; 2], u8, &'static str); 7] = [
    (["x", "s"], [MAKES_NODES, SCRIPT], 2, "read fault: policy\n"),
    (["p", "x"], [MAKES_NODES, SCRIPT], 2, "read fault: script\n"),
    (
        ["p", "s"],
        ["{\"rules\":[", SCRIPT],
        4,
        "policy: not JSON\n",
    ),
    (
        ["p", "s"],
        ["{\"rulez\":[]}", SCRIPT],
        4,
        "policy: unknown key at \"rulez\"\n",
    ),
    (
        ["p", "s"],
        [UNKNOWN_ERROR, SCRIPT],
        4,
        "policy: bad value at rules[0].then.deny\n",
    ),
    (
        ["p", "s"],
        [MAKES_NODES, "pidmax 12x\n"],
        5,
        "script: line 1: bad number\n",
    ),
    (
        ["p", "s"],
        [MAKES_NODES, ""],
        5,
        "script: line 0: no program\n",
    ),
];

/// Sees that the status stays where each write to `err` in turn fails, and that `err` took a part of the line from its beginning.
fn keeps_its_status<R: Abort + Threads + Wait + Sync>(
    rt: &R,
    alloc: Global,
    refused: Given<'_>,
    code: u8,
    line: &str,
) -> Result<(), Fail> {
    for failing_line in 1..6 {
        let failing = Given {
            failing_line,
            ..refused
        };
        let answer = run(rt, alloc, failing, &OpenGate)?;
        assert_eq!(rt; answer.status.code(), code);
        assert!(rt; line.as_bytes().starts_with(answer.err.taken()));
    }
    Ok(())
}

#[test]
fn keeps_its_status_where_standard_error_fails(rt: HostRuntime) -> Result<(), Fail> {
    for ([policy, script], [policy_text, script_text], code, line) in REFUSALS {
        let words = ["play", policy, script];
        let refused = sound(&words, policy_text, script_text);
        keeps_its_status(&rt, rt.alloc(), refused, code, line)?;
    }
    Ok(())
}

#[test]
fn keeps_its_status_where_all_fails(rt: HostRuntime) -> Result<(), Fail> {
    let unread = Given {
        failing_call: 2,
        ..sound(&PLAY, MAKES_NODES, SCRIPT)
    };
    keeps_its_status(&rt, rt.alloc(), unread, 2, "read fault: policy\n")?;
    let unwritten = Given {
        failing_write: 3,
        ..sound(&PLAY, MAKES_NODES, SCRIPT)
    };
    keeps_its_status(&rt, rt.alloc(), unwritten, 6, "write fault\n")
}
