//! Policies, as plain data.

use crate::request::Kind;
use crate::text::{Sequence, Text};
use std::marker::Model;
use sys_abi::errno::Errno;

/// What a rule answers a call that it fits.
#[derive(Clone, Copy, PartialEq, Eq, Debug)]
pub enum Verdict {
    /// The worker does what is asked.
    Grant,
    /// The call fails with this error.
    Deny(Errno),
    /// The call runs natively, with the caller's rights.
    Pass,
    /// A file of the broker's is put into the caller, at a number or at the lowest free one.
    Inject { src: u32, at: Option<u32> },
}

/// The calls that a rule is for.
#[derive(Debug, Drop)]
pub enum Calls {
    /// These, by number.
    Named(Sequence<i32>),
    /// Every call whose number no policy names.
    Other,
}

/// By whose rules the interception keys of a policy are read.
#[derive(Clone, Copy, PartialEq, Eq, Debug)]
pub enum Profile {
    /// This program's own.
    Plain,
    /// Those of LXD 5.0.2 and Incus 6.0.4, which grant less.
    Lxd,
}

/// A flag of a call, by its bit.
#[derive(Clone, Copy, PartialEq, Eq, Debug)]
pub enum Flag {
    /// Of mount(2).
    Mount(u64),
    /// Of setxattr(2).
    Attribute(u32),
}

/// A condition on a request.
#[derive(Debug, Drop)]
pub enum Cond {
    /// The path, or a mount's target, is this text.
    Path(Text),
    /// It lies below this directory, and has no component `..`.
    Under(Text),
    Kind(Kind),
    /// A character or block device with these major and minor numbers.
    Dev(u32, u32),
    Fstype(Text),
    Source(Text),
    /// The attribute's name.
    Name(Text),
    /// The attribute's value, whole.
    Value(Text),
    /// The descriptor of the directory from which a relative path goes; -100 (AT_FDCWD) for mknod(2), which has none.
    Dirfd(i32),
    /// Each of the first flags is set, and none of the others. Only the flags of the request's own call are ever set.
    Flags {
        all: Sequence<Flag>,
        none: Sequence<Flag>,
    },
    /// A node whose device number has no bit above the 32 that mknod(2) takes; every other request meets it.
    ShortDevice,
    /// A mount that neither remounts, binds nor moves; every other request meets it.
    PlainFlags,
}

/// A rule: it decides the calls that fit it, where no earlier rule does.
#[derive(Debug, Drop)]
pub struct Rule {
    pub name: Text,
    pub calls: Calls,
    pub conds: Sequence<Cond>,
    pub verdict: Verdict,
    /// The program that serves a granted mount; empty for none.
    pub via: Text,
    /// Whether a granted mount shifts owners.
    pub shift: bool,
    /// How often the rule grants, if that is limited.
    pub times: Option<u32>,
}

/// How often effects of one rule may be done.
#[derive(Clone, Copy, PartialEq, Eq, Debug)]
pub struct Cap {
    /// The rule's place in its policy, from 0.
    pub rule: u32,
    pub times: u32,
}

/// The rules, in the order in which they are tried.
#[derive(Debug)]
pub struct Policy {
    pub rules: Sequence<Rule>,
}

impl Model for Policy {
    ghost use Rattle.hist_model.specs.Records.{PolicyRecord};
    ghost use Rattle.hist_model.specs.PolicyRules.{IsPolicy};

    ghost Value = { PolicyRecord };

    ghost view = { λ p. record { rules = p.rules } };

    ghost invariant = { λ p. IsPolicy (record { rules = p.rules }) };
}

// (written out, so that what letting one go comes to is proved here once, and not in each crate that owns one)
impl Drop for Policy {
    fn drop(self) {
        let Policy { rules: _rules } = self;
    }
}
