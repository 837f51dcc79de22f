//! Policies that several trials read.

/// A policy that grants the device nodes that LXD grants.
pub(crate) const MAKES_NODES: &str =
    "{\"config\":{\"security.syscalls.intercept.mknod\":\"true\"}}";
