//! What is told of calls by small policies.

use crate::policies::policy_of;
use call_lines::{CallsError, Reason};
use policy_explain::explain;
use std::alloc::Global;
use std::test::Fail;
use sys_abi::memory::OrNoMemory;

/// A policy with a rule for each kind of call that rules answer.
const RULES: &str =
    "{\"version\":2,\"profile\":\"lxd\",\"rules\":[{\"name\":\"no-disks\",\"call\":[\"mknod\",\"mknodat\"],\"when\":{\"kind\":\"blk\"},\"then\":{\"deny\":\"EPERM\"}},{\"name\":\"pipes\",\"call\":\"mknod\",\"when\":{\"kind\":\"fifo\",\"under\":\"/run\"},\"then\":\"grant\",\"times\":1},{\"name\":\"log\",\"call\":\"openat\",\"when\":{\"dirfd\":-100,\"path\":\"/log\"},\"then\":{\"inject\":5,\"at\":9}},{\"name\":\"no-exec\",\"call\":\"mount\",\"when\":{\"flags\":{\"none\":[\"NOEXEC\"]},\"fstype\":\"tmpfs\"},\"then\":{\"deny\":\"EACCES\"}},{\"name\":\"mark\",\"call\":\"setxattr\",\"when\":{\"name\":\"user.mark\",\"value\":\"1\"},\"then\":\"grant\"}]}";

/// LXD's rules for device nodes.
const LXD: &str =
    "{\"profile\":\"lxd\",\"config\":{\"security.syscalls.intercept.mknod\":\"true\"}}";

/// What is told of calls by a policy, or why they are refused.
fn told(alloc: Global, policy: &str, calls: &str) -> Result<Result<Vec<u8>, CallsError>, Fail> {
    if calls.len() > 1024 {
        return Err(Fail::new("a long text"));
    }
    let policy = policy_of(alloc, policy)?;
    match explain(alloc, &policy, calls.as_bytes()) {
        Ok(text) => Ok(Ok(text.into_bytes())),
        Err(OrNoMemory::Refused(error)) => Ok(Err(error)),
        Err(OrNoMemory::NoMemory) => Err(Fail::new("no memory")),
    }
}

/// What is told of calls that aren't refused.
fn text_of(alloc: Global, policy: &str, calls: &str) -> Result<Vec<u8>, Fail> {
    match told(alloc, policy, calls)? {
        Ok(text) => Ok(text),
        Err(_) => Err(Fail::new("the calls are refused")),
    }
}

#[test]
fn the_first_rule_decides(rt: HostRuntime) -> Result<(), Fail> {
    let text = text_of(rt.alloc(), RULES, "mknodat 3 \"sda\" blk 8:0 mode=0o600\n")?;
    assert_eq!(rt;
        text.as_slice(),
        b"1 mknodat 3 \"sda\" blk 8:0 rule=no-disks verdict=deny error=EPERM\n".as_slice()
    );
    Ok(())
}

#[test]
fn rules_before_miss_something(rt: HostRuntime) -> Result<(), Fail> {
    let text = text_of(
        rt.alloc(),
        RULES,
        "# a pipe, and a file\nmknod \"/run/p\" fifo\n\nopenat AT_FDCWD \"/log\"",
    )?;
    assert_eq!(rt;
        text.as_slice(),
        b"2 mknod \"/run/p\" fifo rule=pipes verdict=grant times=1\n  no-disks misses kind: fifo is not blk\n4 openat -100 \"/log\" rule=log verdict=inject src=5 at=9\n  no-disks misses call: openat is not mknod or mknodat\n  pipes misses call: openat is not mknod\n".as_slice()
    );
    Ok(())
}

#[test]
fn flags_are_told_by_name(rt: HostRuntime) -> Result<(), Fail> {
    let text = text_of(
        rt.alloc(),
        RULES,
        "mount \"none\" \"/mnt\" \"tmpfs\" NOEXEC,RDONLY \"size=1m\"",
    )?;
    assert_eq!(rt;
        text.as_slice(),
        b"1 mount \"none\" \"/mnt\" \"tmpfs\" RDONLY,NOEXEC \"size=1m\" rule=default.mount verdict=pass reason=\"no other rule fits\"\n  no-disks misses call: mount is not mknod or mknodat\n  pipes misses call: mount is not mknod\n  log misses call: mount is not openat\n  no-exec misses flags: NOEXEC is set\n  mark misses call: mount is not setxattr\n  default.close misses call: mount is not close\n  default.getpid misses call: mount is not getpid\n  default.sysinfo misses call: mount is not sysinfo\n  default.mknod misses call: mount is not mknod\n".as_slice()
    );
    Ok(())
}

#[test]
fn values_are_told_as_texts(rt: HostRuntime) -> Result<(), Fail> {
    let text = text_of(
        rt.alloc(),
        RULES,
        "setxattr \"/f\" \"user.mark\" \"\\x002\" CREATE",
    )?;
    assert_eq!(rt;
        text.as_slice(),
        b"1 setxattr \"/f\" \"user.mark\" \"\\x002\" CREATE rule=default.setxattr verdict=pass reason=\"no other rule fits\"\n  no-disks misses call: setxattr is not mknod or mknodat\n  pipes misses call: setxattr is not mknod\n  log misses call: setxattr is not openat\n  no-exec misses call: setxattr is not mount\n  mark misses value: \"\\x002\" is not \"1\"\n  default.close misses call: setxattr is not close\n  default.getpid misses call: setxattr is not getpid\n  default.sysinfo misses call: setxattr is not sysinfo\n  default.mknod misses call: setxattr is not mknod\n  default.mount misses call: setxattr is not mount\n".as_slice()
    );
    Ok(())
}

#[test]
fn lxd_s_reasons_are_rules(rt: HostRuntime) -> Result<(), Fail> {
    let text = text_of(rt.alloc(), LXD, "mknodat 3 \"null\" chr 1:3")?;
    assert_eq!(rt;
        text.as_slice(),
        b"1 mknodat 3 \"null\" chr 1:3 rule=lxd.mknodat.directory-descriptor verdict=pass reason=\"the directory descriptor isn't AT_FDCWD\"\n  lxd.mknod.0:0 misses dev: chr 1:3 is not 0:0\n  lxd.mknod.5:1 misses dev: chr 1:3 is not 5:1\n  lxd.mknod.1:7 misses dev: chr 1:3 is not 1:7\n  lxd.mknod.1:3 misses dirfd: 3 is not -100\n  lxd.mknod.1:8 misses dev: chr 1:3 is not 1:8\n  lxd.mknod.5:0 misses dev: chr 1:3 is not 5:0\n  lxd.mknod.1:9 misses dev: chr 1:3 is not 1:9\n  lxd.mknod.1:5 misses dev: chr 1:3 is not 1:5\n  lxd.mknod.not-a-known-device misses dirfd: 3 is not -100\n".as_slice()
    );
    Ok(())
}

#[test]
fn no_calls_make_no_text(rt: HostRuntime) -> Result<(), Fail> {
    let text = text_of(rt.alloc(), RULES, "# nothing\n\n")?;
    assert_eq!(rt; text.len(), 0);
    Ok(())
}

#[test]
fn the_first_line_that_is_refused_is_named(rt: HostRuntime) -> Result<(), Fail> {
    let refused = told(rt.alloc(), RULES, "close\n\nopen \"/log\"\nclose 3\n")?;
    let Err(error) = refused else {
        return Err(Fail::new("it is taken"));
    };
    assert_eq!(rt; error.line, 3);
    assert_eq!(rt; error.reason, Reason::UnknownWord);
    Ok(())
}
