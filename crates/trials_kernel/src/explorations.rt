//! What small scripts explore to.

ghost use Rattle.std.specs.Prelude.{◌≤◌};

use crate::policies::MAKES_NODES;
use explorer::{Exploration, explore};
use long_count::LongCount;
use policy_reader::read_policy;
use script_reader::read_script;
use std::alloc::Global;
use std::test::Fail;

/// A task asks for a device node, and is killed meanwhile.
const KILLED: &str =
    "notify mknod\n\nprog caller\ncall mknod 0x10000 0o020666 259\nend\n\nprog main\npoke 0x10000 \"/null\\0\"\nspawn caller\nkill child 1 9\nend\n";

/// A policy that grants two device nodes.
const TWO_NULLS: &str =
    "{\"version\":2,\"rules\":[{\"name\":\"two-nulls\",\"call\":\"mknod\",\"when\":{\"dev\":\"1:3\"},\"then\":\"grant\",\"times\":2}]}";

/// Three tasks ask for a device node each.
const THREE_CALLERS: &str =
    "notify mknod\n\nprog second\ncall mknod 0x10010 0o020666 259\nend\n\nprog third\ncall mknod 0x10020 0o020666 259\nend\n\nprog main\npoke 0x10000 \"/a\\0\"\npoke 0x10010 \"/b\\0\"\npoke 0x10020 \"/c\\0\"\nspawn second\nspawn third\ncall mknod 0x10000 0o020666 259\nend\n";

/// A policy that grants one device node.
const ONE_NULL: &str =
    "{\"version\":2,\"rules\":[{\"name\":\"one-null\",\"call\":[\"mknod\",\"mknodat\"],\"when\":{\"dev\":\"1:3\"},\"then\":\"grant\",\"times\":1}]}";

/// Two tasks ask for a device node each.
const TWO_CALLERS: &str =
    "notify mknod\n\nprog caller\npoke 0x10000 \"/a\\0\"\ncall mknod 0x10000 0o020666 259\nend\n\nprog main\npoke 0x10000 \"/b\\0\"\nspawn caller\ncall mknod 0x10000 0o020666 259\nend\n";

/// Explores a script under a policy.
fn explored(
    alloc: Global,
    policy: &str,
    script: &str,
    workers: u8,
    delays: Option<u64>,
) -> Result<Exploration, Fail>
    requires { workers ≤ 15 }
{
    if policy.len() > 1024 || script.len() > 1024 {
        return Err(Fail::new("a long text"));
    }
    let policy = read_policy(alloc, policy.as_bytes())?;
    let script = read_script(alloc, script.as_bytes())?;
    Ok(explore(alloc, &policy, script, workers, delays)?)
}

/// How many histories have each outcome, each behind a space.
fn counts(alloc: Global, found: &Exploration) -> Result<Vec<u8>, Fail> {
    let mut counts = Vec::new(alloc);
    for outcome in &found.outcomes {
        counts.push(b' ')?;
        counts.extend_from_slice(outcome.histories().text(alloc)?.as_slice())?;
    }
    Ok(counts)
}

/// A count as text.
fn shown(alloc: Global, count: &LongCount) -> Result<Vec<u8>, Fail> {
    Ok(count.text(alloc)?)
}

#[test]
fn any_two_of_three_callers_are_granted(rt: HostRuntime) -> Result<(), Fail> {
    let some = explored(rt.alloc(), TWO_NULLS, THREE_CALLERS, 0, Some(2))?;
    assert_eq!(rt;
        shown(rt.alloc(), &some.histories)?.as_slice(),
        b"305".as_slice()
    );
    assert_eq!(rt;
        shown(rt.alloc(), &some.events)?.as_slice(),
        b"13115".as_slice()
    );
    assert_eq!(rt; some.longest, 43);
    assert_eq!(rt; some.whole, true);
    assert_eq!(rt;
        counts(rt.alloc(), &some)?.as_slice(),
        b" 253 26 26".as_slice()
    );
    Ok(())
}

#[test]
fn a_caller_is_killed_at_any_time(rt: HostRuntime) -> Result<(), Fail> {
    let all = explored(rt.alloc(), MAKES_NODES, KILLED, 0, None)?;
    assert_eq!(rt;
        shown(rt.alloc(), &all.histories)?.as_slice(),
        b"475".as_slice()
    );
    assert_eq!(rt;
        shown(rt.alloc(), &all.events)?.as_slice(),
        b"7900".as_slice()
    );
    assert_eq!(rt; all.longest, 18);
    assert_eq!(rt; all.whole, true);
    assert_eq!(rt;
        counts(rt.alloc(), &all)?.as_slice(),
        b" 2 234 116 120 3".as_slice()
    );
    Ok(())
}

#[test]
fn one_of_two_callers_is_granted_by_two_workers(rt: HostRuntime) -> Result<(), Fail> {
    let some = explored(rt.alloc(), ONE_NULL, TWO_CALLERS, 1, Some(2))?;
    assert_eq!(rt;
        shown(rt.alloc(), &some.histories)?.as_slice(),
        b"171".as_slice()
    );
    assert_eq!(rt;
        shown(rt.alloc(), &some.events)?.as_slice(),
        b"4959".as_slice()
    );
    assert_eq!(rt; some.longest, 29);
    assert_eq!(rt; some.whole, true);
    assert_eq!(rt;
        counts(rt.alloc(), &some)?.as_slice(),
        b" 121 50".as_slice()
    );
    Ok(())
}

#[test]
fn histories_that_come_to_one_state_are_counted_together(rt: HostRuntime) -> Result<(), Fail> {
    let all = explored(rt.alloc(), ONE_NULL, TWO_CALLERS, 1, None)?;
    assert_eq!(rt;
        shown(rt.alloc(), &all.histories)?.as_slice(),
        b"37279368".as_slice()
    );
    assert_eq!(rt;
        shown(rt.alloc(), &all.events)?.as_slice(),
        b"1081101672".as_slice()
    );
    assert_eq!(rt; all.longest, 29);
    assert_eq!(rt; all.whole, true);
    assert_eq!(rt;
        counts(rt.alloc(), &all)?.as_slice(),
        b" 21684474 15594894".as_slice()
    );
    Ok(())
}

#[test]
fn without_delays_the_caller_is_killed_before_its_call(rt: HostRuntime) -> Result<(), Fail> {
    let one = explored(rt.alloc(), MAKES_NODES, KILLED, 0, Some(0))?;
    let [outcome] = one.outcomes.as_slice() else {
        return Err(Fail::new("not one outcome"));
    };
    assert_eq!(rt;
        shown(rt.alloc(), outcome.histories())?.as_slice(),
        b"1".as_slice()
    );
    assert_eq!(rt; outcome.text().is_empty(), true);
    let Some([first, caller]) = outcome.schedule() else {
        return Err(Fail::new("not two lines"));
    };
    assert_eq!(rt; first.count, 4);
    assert_eq!(rt; caller.count, 1);
    Ok(())
}
