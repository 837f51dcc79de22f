//! Why the tree refuses a change.

use thiserror::Error;

/// The directory already has an entry of that name: EEXIST of mknod(2).
#[derive(Clone, Copy, PartialEq, Eq, Debug, Error)]
#[error("the name exists")]
pub struct Exists;

/// Why an attribute isn't set (setxattr(2)).
#[derive(Clone, Copy, PartialEq, Eq, Debug, Error)]
pub enum AttrError {
    /// A flag that setxattr(2) doesn't know: EINVAL.
    #[error("unknown flags")]
    BadFlags,
    /// XATTR_CREATE was given, and the node has the attribute: EEXIST.
    #[error("the attribute exists")]
    Exists,
    /// XATTR_REPLACE was given, and the node doesn't have it: ENODATA.
    #[error("no such attribute")]
    Absent,
    /// There was no memory.
    #[error("no memory")]
    NoMemory,
}
