//! Why a call is passed, in words.

ghost use Rattle.std.specs.Prelude.{◌≡◌, ◌++◌, OnOk};
ghost use Rattle.hist_model.specs.declared.policy.Verdict.TheVariants.{Pass};
ghost use Rattle.policy_reader.specs.Readings.{named};
ghost use Rattle.policy_explain.specs.Reasons.{cause_text, causes, other_reason, pass_text, reason_of};

use audit_log::line::LineBuffer;
use hist_model::policy::Verdict;
use policy_reader::texts::named;
use sys_abi::memory::NoMemory;

/// Why LXD passes a call.
#[derive(Clone, Copy)]
pub(crate) enum Cause {
    /// No node of a kind and a number that it makes.
    OtherNode,
    /// Its path goes from the descriptor of a directory.
    Descriptor,
    /// An operation of mount(2) that LXD never hears of.
    NotNotified,
    /// An operation of mount(2) that mounts nothing.
    MountsNothing,
    OtherType,
    OtherValue,
    OtherName,
}

/// The rules by which LXD passes calls, each with its cause.
const CAUSES: [(&'static str, Cause); 9] = [
    ("lxd.mknod.not-a-known-device", Cause::OtherNode),
    ("lxd.mknodat.directory-descriptor", Cause::Descriptor),
    ("lxd.mount.remount", Cause::NotNotified),
    ("lxd.mount.bind", Cause::NotNotified),
    ("lxd.mount.move", Cause::NotNotified),
    ("lxd.mount.propagation", Cause::MountsNothing),
    ("lxd.mount.type", Cause::OtherType),
    ("lxd.setxattr.value", Cause::OtherValue),
    ("lxd.setxattr.name", Cause::OtherName),
];

/// The cause for which a rule of this name passes calls.
fn cause_named(name: &[u8]) -> Option<Cause>
    ensures { result ≡ named causes name.now }
{
    named(&CAUSES, name)
}

/// A cause in words.
fn cause_text(cause: Cause) -> &'static str
    ensures { result.now ≡ cause_text cause }
{
    match cause {
        Cause::OtherNode => "LXD makes no such node",
        Cause::Descriptor => "the directory descriptor isn't AT_FDCWD",
        Cause::NotNotified => "LXD's filter doesn't notify it",
        Cause::MountsNothing => "mount(2) changes how a mount propagates, and mounts nothing",
        Cause::OtherType => "the type isn't mounted",
        Cause::OtherValue => "the value isn't y",
        Cause::OtherName => "the attribute has another name",
    }
}

/// Why a rule passes calls that isn't LXD's.
fn other_reason(name: &[u8]) -> &'static str
    ensures { result.now ≡ other_reason name.now }
{
    if name.starts_with(b"default.") {
        "no other rule fits"
    } else {
        "the rule says so"
    }
}

/// Why a rule of this name passes a call.
#[tactic(auto, unfolding(crate::specs::Reasons::reason_of))]
fn reason_of(name: &[u8]) -> &'static str
    ensures { result.now ≡ reason_of name.now }
{
    match cause_named(name) {
        Some(cause) => cause_text(cause),
        None => other_reason(name),
    }
}

/// Adds why a rule of this name passes a call.
fn push_reason(line: &mut LineBuffer, name: &[u8]) -> Result<(), NoMemory>
    ensures { OnOk result (line.new ≡ line.old ++ pass_text Pass name.now) }
{
    line.push(" reason=\"")?;
    line.push(reason_of(name))?;
    line.push("\"")
}

/// Adds why a rule passes a call, where it does.
pub fn push_pass(line: &mut LineBuffer, verdict: Verdict, name: &[u8]) -> Result<(), NoMemory>
    ensures { OnOk result (line.new ≡ line.old ++ pass_text verdict name.now) }
{
    match verdict {
        Verdict::Pass => push_reason(line, name),
        _ => Ok(()),
    }
}
