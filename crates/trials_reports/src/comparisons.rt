//! What is told of pairs of small policies.

use crate::policies::policy_of;
use policy_classes::ending::{Ending, Told};
use policy_compare::compare;
use std::alloc::Global;
use std::test::Fail;

/// A policy without rules of its own.
const BARE: &str = "{\"version\":2,\"rules\":[]}";

/// One that grants a device, and denies what lies under a directory.
const DEVICES: &str =
    "{\"version\":2,\"rules\":[{\"name\":\"quiet\",\"call\":\"mknod\",\"when\":{\"under\":\"/dev\"},\"then\":{\"deny\":\"EPERM\"}},{\"name\":\"null\",\"call\":\"mknod\",\"when\":{\"dev\":\"1:3\",\"kind\":\"chr\"},\"then\":\"grant\",\"times\":2}]}";

/// A rule that grants two paths together, and two rules that grant them apart.
const TOGETHER: &str =
    "{\"version\":2,\"rules\":[{\"name\":\"chr\",\"call\":\"mknod\",\"when\":{\"kind\":\"chr\"},\"then\":\"grant\",\"times\":3}]}";

const APART: &str =
    "{\"version\":2,\"rules\":[{\"name\":\"null\",\"call\":\"mknod\",\"when\":{\"kind\":\"chr\",\"dev\":\"1:3\"},\"then\":\"grant\",\"times\":3},{\"name\":\"chr\",\"call\":\"mknod\",\"when\":{\"kind\":\"chr\"},\"then\":\"grant\",\"times\":3}]}";

/// What is told of two policies.
fn told(alloc: Global, old: &str, new: &str) -> Result<Told, Fail> {
    let old = policy_of(alloc, old)?;
    let new = policy_of(alloc, new)?;
    Ok(compare(alloc, &old, &new, None)?)
}

#[test]
fn a_policy_equals_itself(rt: HostRuntime) -> Result<(), Fail> {
    let told = told(rt.alloc(), DEVICES, DEVICES)?;
    assert_eq!(rt; told.text.items(), b"equal\n".as_slice());
    assert_eq!(rt; told.ending, Ending::Alike);
    Ok(())
}

#[test]
fn each_rule_that_differs_has_a_line(rt: HostRuntime) -> Result<(), Fail> {
    let told = told(rt.alloc(), BARE, DEVICES)?;
    let text = told.text.items();
    assert!(rt; text.starts_with(b"differ classes=2 counts=0 whole=yes\nnarrower mknod \"/dev/"));
    assert!(rt;
        text.ends_with(
            b" chr 1:3 old-rule=default.mknod old=pass new-rule=null new=grant,times=2\n"
        )
    );
    assert_eq!(rt; told.ending, Ending::Otherwise);
    Ok(())
}

#[test]
fn calls_that_are_counted_apart_have_a_line(rt: HostRuntime) -> Result<(), Fail> {
    let told = told(rt.alloc(), TOGETHER, APART)?;
    let text = told.text.items();
    assert!(rt; text.starts_with(b"differ classes=0 counts=1 whole=yes\ncounts mknod \""));
    assert!(rt; text.ends_with(b" old=together new=apart\n"));
    Ok(())
}
