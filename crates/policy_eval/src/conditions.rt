//! Whether a rule fits a request, and what its conditions see of one.

ghost use Rattle.std.specs.Prelude.{◌≡◌, ◌==◌, ◌&&◌, ◌++◌, ◌∷◌, [], nat_eq, bytes_eq, not, bit_and};
ghost use Rattle.std.specs.Option.{option_copied};
ghost use Rattle.std.specs.List.{starts_with, list_all, list_any};
ghost use Rattle.hist_model.specs.Requests.{low_32, major_of, minor_of};
ghost use Rattle.hist_model.specs.Decisions.{fits, covers, meets, is_text, path_of, fstype_of, source_of, attribute_of, value_of, dirfd_of, dirfd_or_cwd, is_descriptor, has_flag, has_flags, mount_flags, has_short_device, lies_under, has_dot_dot, asks_kind, asks_device, is_device, has_plain_flags};

use bitflags::Flags;
use hist_model::policy::{Calls, Cond, Flag, Rule};
use hist_model::request::{Kind, Request, node_device};
use sys_abi::calls;
use sys_abi::device::split_dev;
use sys_abi::flags::{MountFlags, XattrFlags};
use sys_abi::wire::AT_FDCWD;

/// The magic number that old programs set in bits 16 to 31 of the flags, and the mask of these (mount(2)).
const MS_MGC_VAL: u64 = 0xc0ed_0000;

const MS_MGC_MSK: u64 = 0xffff_0000;

/// How many bytes at the end of a text are compared before those in front of them.
const END: usize = 16;

/// The calls that a policy can name: close, getpid, sysinfo, mknod, mount, setxattr, openat and mknodat.
const NAMED: [i32; 8] = [
    calls::CLOSE,
    calls::GETPID,
    calls::SYSINFO,
    calls::MKNOD,
    calls::MOUNT,
    calls::SETXATTR,
    calls::OPENAT,
    calls::MKNODAT,
];

/// Whether the request is one of the rule's calls, and meets all its conditions.
#[tactic(auto, unfolding(hist_model::specs::Decisions::fits))]
pub fn fits(rule: &Rule, request: &Request) -> bool
    ensures { result ≡ fits rule.now request.now }
{
    covers(&rule.calls, request.call()) && meets_all(rule.conds.items(), request)
}

/// Whether the calls include this number.
pub fn covers(calls: &Calls, nr: i32) -> bool
    ensures { result ≡ covers calls.now nr }
{
    match calls {
        Calls::Named(numbers) => numbers.items().contains(&nr),
        Calls::Other => !NAMED.contains(&nr),
    }
}

/// Whether the request meets all these conditions.
fn meets_all(conds: &[Cond], request: &Request) -> bool
    ensures { result ≡ list_all (λ c. meets c request.now) conds.now }
{
    conds.iter().all(|c| meets(c, request))
}

/// Whether the request meets the condition.
pub fn meets(cond: &Cond, request: &Request) -> bool
    ensures { result ≡ meets cond.now request.now }
{
    match cond {
        Cond::Path(text) => is_text(path_of(request), text.items()),
        Cond::Under(dir) => lies_under(path_of(request), dir.items()),
        Cond::Kind(kind) => asks_kind(request, *kind),
        Cond::Dev(major, minor) => asks_device(request, *major, *minor),
        Cond::Fstype(text) => is_text(fstype_of(request), text.items()),
        Cond::Source(text) => is_text(source_of(request), text.items()),
        Cond::Name(text) => is_text(attribute_of(request), text.items()),
        Cond::Value(text) => is_text(value_of(request), text.items()),
        Cond::Dirfd(number) => is_descriptor(dirfd_of(request), *number),
        Cond::Flags { all, none } => has_flags(request, all.items(), none.items()),
        Cond::ShortDevice => has_short_device(request),
        Cond::PlainFlags => has_plain_flags(request),
    }
}

/// Whether there is a text, and it is this one.
fn is_text(found: Option<&[u8]>, text: &[u8]) -> bool
    ensures { result ≡ is_text (option_copied found.entry) text.now }
{
    match found {
        Some(t) => is_same(t, text),
        None => false,
    }
}

/// Whether the two texts are one. Their ends are compared first: the paths of one directory differ there alone.
#[tactic(auto, using(crate::proofs::Texts::other_length, crate::proofs::Texts::other_end, crate::proofs::Texts::same_end))]
fn is_same(a: &[u8], b: &[u8]) -> bool
    ensures { result ≡ bytes_eq a.now b.now }
{
    if a.len() != b.len() {
        return false;
    }
    let front = a.len().saturating_sub(END);
    let (front_of_a, end_of_a) = a.split_at(front);
    let (front_of_b, end_of_b) = b.split_at(front);
    end_of_a == end_of_b && front_of_a == front_of_b
}

/// The path of the request, which for a mount is its target.
pub fn path_of(request: &Request) -> Option<&[u8]>
    ensures { option_copied result ≡ path_of request.now }
{
    match request {
        Request::Mknod { path, .. }
        | Request::SetXattr { path, .. }
        | Request::OpenAt { path, .. } => Some(path.items()),
        Request::Mount { target, .. } => Some(target.items()),
        _ => None,
    }
}

/// The type of file system that is to be mounted.
pub fn fstype_of(request: &Request) -> Option<&[u8]>
    ensures { option_copied result ≡ fstype_of request.now }
{
    match request {
        Request::Mount { fstype, .. } => Some(fstype.items()),
        _ => None,
    }
}

/// The source that is to be mounted.
pub fn source_of(request: &Request) -> Option<&[u8]>
    ensures { option_copied result ≡ source_of request.now }
{
    match request {
        Request::Mount { source, .. } => Some(source.items()),
        _ => None,
    }
}

/// The name of the attribute that is to be set.
pub fn attribute_of(request: &Request) -> Option<&[u8]>
    ensures { option_copied result ≡ attribute_of request.now }
{
    match request {
        Request::SetXattr { name, .. } => Some(name.items()),
        _ => None,
    }
}

/// The value of the attribute that is to be set.
pub fn value_of(request: &Request) -> Option<&[u8]>
    ensures { option_copied result ≡ value_of request.now }
{
    match request {
        Request::SetXattr { value, .. } => Some(value.items()),
        _ => None,
    }
}

/// The descriptor of a mknod: without one it is AT_FDCWD.
fn dirfd_or_cwd(dirfd: Option<i32>) -> i32
    ensures { result ≡ dirfd_or_cwd dirfd }
{
    match dirfd {
        Some(fd) => fd,
        None => AT_FDCWD,
    }
}

/// The descriptor of the directory from which the path of a node or a file goes, where it is relative.
pub fn dirfd_of(request: &Request) -> Option<i32>
    ensures { result ≡ dirfd_of request.now }
{
    match request {
        Request::Mknod { dirfd, .. } => Some(dirfd_or_cwd(*dirfd)),
        Request::OpenAt { dirfd, .. } => Some(*dirfd),
        _ => None,
    }
}

/// Whether there is a descriptor, and it is this one.
fn is_descriptor(found: Option<i32>, number: i32) -> bool
    ensures { result ≡ is_descriptor found number }
{
    match found {
        Some(fd) => fd == number,
        None => false,
    }
}

/// The flags of a mount: where bits 16 to 31 are the magic number of old programs, only those below them are flags.
fn mount_flags(flags: u64) -> u64
    ensures { result ≡ mount_flags flags }
{
    if flags & MS_MGC_MSK == MS_MGC_VAL {
        flags % 0x1_0000
    } else {
        flags
    }
}

/// Whether the flag is one of the request's call, and is set.
pub fn has_flag(request: &Request, flag: Flag) -> bool
    ensures { result ≡ has_flag request.now flag }
{
    match (request, flag) {
        (Request::Mount { flags, .. }, Flag::Mount(bit)) => {
            MountFlags::from_bits_retain(mount_flags(*flags)).intersects(
                MountFlags::from_bits_retain(bit),
            )
        }
        (Request::SetXattr { flags, .. }, Flag::Attribute(bit)) => {
            XattrFlags::from_bits_retain(*flags).intersects(XattrFlags::from_bits_retain(bit))
        }
        _ => false,
    }
}

/// Whether each of these flags is set.
fn has_all(request: &Request, flags: &[Flag]) -> bool
    ensures { result ≡ list_all (λ f. has_flag request.now f) flags.now }
{
    flags.iter().all(|flag| has_flag(request, *flag))
}

/// Whether one of these flags is set.
fn has_any(request: &Request, flags: &[Flag]) -> bool
    ensures { result ≡ list_any (λ f. has_flag request.now f) flags.now }
{
    flags.iter().any(|flag| has_flag(request, *flag))
}

/// Whether each of the first flags is set, and none of the others.
fn has_flags(request: &Request, all: &[Flag], none: &[Flag]) -> bool
    ensures { result ≡ has_flags request.now all.now none.now }
{
    has_all(request, all) && !has_any(request, none)
}

/// Whether the request isn't a node whose device number has a bit above the 32nd.
fn has_short_device(request: &Request) -> bool
    ensures { result ≡ has_short_device request.now }
{
    match request {
        Request::Mknod { dev, .. } => *dev < 0x1_0000_0000,
        _ => true,
    }
}

/// Whether there is a path, and it begins with the directory and a slash and has no component `..`.
fn lies_under(found: Option<&[u8]>, dir: &[u8]) -> bool
    ensures { result ≡ lies_under (option_copied found.entry) dir.now }
{
    match found {
        Some(path) => begins_with_dir(path, dir) && !has_dot_dot(path),
        None => false,
    }
}

/// Whether the path begins with the directory and a slash.
#[tactic(auto, using(crate::proofs::Prefixes::begins_by_slash, crate::proofs::Prefixes::too_short, crate::proofs::Prefixes::other_byte))]
fn begins_with_dir(path: &[u8], dir: &[u8]) -> bool
    ensures { result ≡ starts_with nat_eq path.now (dir.now ++ 47 ∷ []) }
{
    dir.len() < path.len() && path[dir.len()] == b'/' && is_same(dir, &path[..dir.len()])
}

/// Whether the path has a component `..`.
fn has_dot_dot(path: &[u8]) -> bool
    ensures { result ≡ has_dot_dot path.now }
{
    path.split(|b| *b == b'/')
        .any(|component| component == b"..".as_slice())
}

/// Whether a node of this kind is asked for.
fn asks_kind(request: &Request, kind: Kind) -> bool
    ensures { result ≡ asks_kind request.now kind }
{
    match request {
        Request::Mknod { mode, .. } => Kind::of_mode(*mode) == kind,
        _ => false,
    }
}

/// Whether a device with these numbers is asked for, a character or a block device.
fn asks_device(request: &Request, major: u32, minor: u32) -> bool
    ensures { result ≡ asks_device request.now major minor }
{
    match request {
        Request::Mknod { mode, dev, .. } => is_device(Kind::of_mode(*mode))
            && is_numbered(*dev, major, minor),
        _ => false,
    }
}

/// Whether the kind has device numbers.
fn is_device(kind: Kind) -> bool
    ensures { result ≡ is_device kind }
{
    match kind {
        Kind::Chr | Kind::Blk => true,
        _ => false,
    }
}

/// Whether the 32 bits of the device argument that mknod(2) takes stand for these numbers (makedev(3)).
fn is_numbered(dev: u64, major: u32, minor: u32) -> bool
    ensures { result ≡ ((major_of (low_32 dev) == major) && (minor_of (low_32 dev) == minor)) }
{
    split_dev(node_device(dev)) == (major, minor)
}

/// Whether the flags are those of a mount that neither remounts, binds nor moves.
fn is_plain(flags: MountFlags) -> bool
    ensures { result ≡ ((bit_and flags.0 32 == 0) && ((bit_and flags.0 4096 == 0) && (bit_and flags.0 8192 == 0))) }
{
    !flags.intersects(MountFlags::REMOUNT)
        && !flags.intersects(MountFlags::BIND)
        && !flags.intersects(MountFlags::MOVE)
}

/// Whether the request isn't a mount that remounts, binds or moves.
fn has_plain_flags(request: &Request) -> bool
    ensures { result ≡ has_plain_flags request.now }
{
    match request {
        Request::Mount { flags, .. } => is_plain(MountFlags::from_bits_retain(*flags)),
        _ => true,
    }
}
