//! A policy and a script that several trials read.

/// A policy that grants the device nodes that LXD grants.
pub(crate) const MAKES_NODES: &str =
    "{\"config\":{\"security.syscalls.intercept.mknod\":\"true\"}}";

/// Two tasks, each of which makes a node.
pub(crate) const TWO_NODES: &str =
    "notify mknod\nprog a\npoke 0x10000 \"/a\\0\"\ncall mknod 0x10000 0o020666 259\nend\nprog b\npoke 0x10000 \"/b\\0\"\ncall mknod 0x10000 0o020666 259\nend\nprog main\nspawn a\nspawn b\nwait\nwait\nend\n";
