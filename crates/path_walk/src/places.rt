//! Where walks end.

ghost use Rattle.std.specs.Prelude.{◌≡◌, ◌≤◌};
ghost use Rattle.path_walk.specs.Places.{error_number};

use hist_model::request::NodeRef;
use sys_abi::errno::Errno;
use thiserror::Error;

/// What is done with the last component of a path.
#[derive(Clone, Copy, PartialEq, Eq, Debug)]
pub enum Last {
    /// It is followed to a node that is there.
    Follow,
    /// It is the name of a node that is to be made.
    Create,
}

/// Where a path leads.
#[derive(Clone, Copy, PartialEq, Eq, Debug)]
pub enum Place {
    At(NodeRef),
    /// A name in a directory, where there may be an entry of that name; the walk keeps the name.
    New { dir: NodeRef },
}

/// Why a path leads nowhere (path_resolution(7)).
#[derive(Clone, Copy, PartialEq, Eq, Debug, Error)]
pub enum WalkError {
    /// The path is empty, or a directory has no such entry: ENOENT.
    #[error("no such entry")]
    NoEntry,
    /// A component is sought in what isn't a directory: ENOTDIR.
    #[error("not a directory")]
    NotDir,
    /// More than 40 links: ELOOP.
    #[error("too many links")]
    Loop,
    /// A component has more than 255 bytes: ENAMETOOLONG.
    #[error("name too long")]
    NameTooLong,
    /// The last component can't be the name of a new node: EEXIST.
    #[error("exists")]
    Exists,
    /// A relative path without a base: EBADF.
    #[error("no base")]
    NoBase,
}

impl WalkError {
    /// Its number.
    pub fn errno(self) -> Errno
        ensures { result ≡ error_number self }
    {
        match self {
            WalkError::NoEntry => Errno::ENOENT,
            WalkError::NotDir => Errno::ENOTDIR,
            WalkError::Loop => Errno::ELOOP,
            WalkError::NameTooLong => Errno::ENAMETOOLONG,
            WalkError::Exists => Errno::EEXIST,
            WalkError::NoBase => Errno::EBADF,
        }
    }
}
