//! The words of policies, as messages list them.

pub const TOP_KEYS: &[&'static str] = &["config", "profile", "rules", "version"];

pub const RULE_KEYS: &[&'static str] = &["call", "name", "then", "times", "when"];

pub const CONDITIONS: &[&'static str] = &[
    "path", "under", "kind", "dev", "fstype", "source", "name", "value", "dirfd", "flags",
];

pub const ANSWER_KEYS: &[&'static str] = &["at", "deny", "inject"];

pub const ANSWERS: &[&'static str] = &["grant", "pass"];

pub const FLAG_KEYS: &[&'static str] = &["all", "none"];

/// The keys of LXD that are read.
pub const CONFIG_KEYS: &[&'static str] = &[
    "security.syscalls.intercept.mknod",
    "security.syscalls.intercept.mount",
    "security.syscalls.intercept.mount.allowed",
    "security.syscalls.intercept.mount.fuse",
    "security.syscalls.intercept.mount.shift",
    "security.syscalls.intercept.setxattr",
    "security.syscalls.intercept.sysinfo",
];

pub const SWITCHES: &[&'static str] = &["true", "1", "yes", "on", "false", "0", "no", "off"];

pub const CALLS: &[&'static str] = &[
    "close", "getpid", "sysinfo", "mknod", "mount", "setxattr", "openat", "mknodat",
];

pub const KINDS: &[&'static str] = &["reg", "chr", "blk", "fifo", "sock"];

pub const PROFILES: &[&'static str] = &["lxd"];

pub const ERRORS: &[&'static str] = &[
    "EPERM",
    "ENOENT",
    "ESRCH",
    "EINTR",
    "E2BIG",
    "EBADF",
    "ECHILD",
    "EAGAIN",
    "EACCES",
    "EFAULT",
    "EBUSY",
    "EEXIST",
    "ENODEV",
    "ENOTDIR",
    "EINVAL",
    "EMFILE",
    "ERANGE",
    "ENAMETOOLONG",
    "ENOSYS",
    "ELOOP",
    "ENODATA",
    "EINPROGRESS",
    "EDQUOT",
];

pub const FLAGS: &[&'static str] = &[
    "RDONLY",
    "NOSUID",
    "NODEV",
    "NOEXEC",
    "SYNCHRONOUS",
    "REMOUNT",
    "MANDLOCK",
    "DIRSYNC",
    "NOSYMFOLLOW",
    "NOATIME",
    "NODIRATIME",
    "BIND",
    "MOVE",
    "REC",
    "SILENT",
    "UNBINDABLE",
    "PRIVATE",
    "SLAVE",
    "SHARED",
    "RELATIME",
    "STRICTATIME",
    "LAZYTIME",
    "CREATE",
    "REPLACE",
];
