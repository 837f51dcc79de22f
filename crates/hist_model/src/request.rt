//! What a call asks for, and what the tree and the tables are made of.

ghost use Rattle.std.specs.Prelude.{◌≡◌, IfOk};
ghost use Rattle.hist_model.specs.Requests.{low_32, natural};

use crate::text::{Sequence, Text};
use std::alloc::Global;
use sys_abi::calls;
use sys_abi::memory::NoMemory;

/// A task, by its ordinal: the number of tasks that were made before it. No other task has it, and it stays after the reaping.
#[derive(Clone, Copy, PartialEq, Eq, Debug)]
pub struct TaskRef {
    pub ordinal: u32,
}

/// The n-th node made, counted from 0: node 0 is `/`, and then come the stated ones in order.
#[derive(Clone, Copy, PartialEq, Eq, Debug)]
pub struct NodeRef {
    pub ordinal: u32,
}

/// The kind of node that a mode asks for (inode(7)).
#[derive(Clone, Copy, PartialEq, Eq, Debug)]
pub enum Kind {
    Reg,
    Chr,
    Blk,
    Fifo,
    Sock,
    Dir,
    /// The mode has no kind of node.
    Bad,
}

impl Kind {
    ghost use Rattle.hist_model.specs.Requests.{kind_of};

    /// The kind of node that a mode asks for, by its four bits S_IFMT. A mode without a kind asks for a regular file.
    pub fn of_mode(mode: u16) -> Kind
        ensures { result ≡ kind_of mode }
    {
        match mode / 0o10000 % 0o20 {
            0o00 | 0o10 => Kind::Reg,
            0o01 => Kind::Fifo,
            0o02 => Kind::Chr,
            0o04 => Kind::Dir,
            0o06 => Kind::Blk,
            0o14 => Kind::Sock,
            _ => Kind::Bad,
        }
    }
}

/// The device number that a node gets of a call's argument: the 32 bits that mknod(2) takes.
pub fn node_device(dev: u64) -> u32
    ensures { result ≡ low_32 dev }
{
    (dev % 0x1_0000_0000) as u32
}

/// A node of the tree. The devices have their major and minor numbers.
#[derive(Debug, Drop)]
pub enum Node {
    Dir,
    Reg,
    /// A symbolic link and its target.
    Link(Text),
    Fifo,
    Sock,
    Chr(u32, u32),
    Blk(u32, u32),
}

/// What is kept of a mount, beside its target and its root (mount(2)).
#[derive(Debug, Drop)]
pub struct MountRow {
    pub source: Text,
    pub fstype: Text,
    pub flags: u64,
    /// The data that the call passed.
    pub options: Text,
    /// The program that serves the file system; empty for none.
    pub via: Text,
    /// Whether owners are shifted into the container's range.
    pub shift: bool,
}

/// What an open descriptor leads to.
#[derive(Clone, Copy, PartialEq, Eq, Debug)]
pub enum Obj {
    Console,
    Node(NodeRef),
    /// A file of the broker's, by its number there.
    Broker(u32),
}

/// A number that isn't negative; 0 in the place of one that is.
fn natural(number: i32) -> u64
    ensures { result ≡ natural number }
{
    if number < 0 { 0 } else { number as u64 }
}

/// What a call asks for, with its arguments read.
#[derive(Debug, Drop)]
pub enum Request {
    /// mknod(2), and mknodat(2) where there is a descriptor. The device is the whole argument: a node gets its low 32 bits.
    Mknod {
        dirfd: Option<i32>,
        path: Text,
        mode: u16,
        dev: u64,
    },
    /// mount(2).
    Mount {
        source: Text,
        target: Text,
        fstype: Text,
        options: Text,
        via: Text,
        flags: u64,
        shift: bool,
    },
    /// setxattr(2).
    SetXattr {
        path: Text,
        name: Text,
        value: Text,
        flags: u32,
    },
    /// openat(2).
    OpenAt {
        dirfd: i32,
        path: Text,
        flags: u32,
    },
    /// sysinfo(2).
    Sysinfo {
        addr: u64,
    },
    /// Every other call.
    Other {
        nr: i32,
    },
}

impl Request {
    ghost use Rattle.hist_model.specs.Requests.{call_of_request, called, descriptor_at, natural_at, text_at};

    /// A copy of this request.
    pub fn copied(&self, alloc: Global) -> Result<Request, NoMemory>
        ensures { IfOk result (λ q. q ≡ self.now) }
    {
        Ok(match self {
            Request::Mknod {
                dirfd,
                path,
                mode,
                dev,
            } => Request::Mknod {
                dirfd: *dirfd,
                path: path.copied(alloc)?,
                mode: *mode,
                dev: *dev,
            },
            Request::Mount {
                source,
                target,
                fstype,
                options,
                via,
                flags,
                shift,
            } => Request::Mount {
                source: source.copied(alloc)?,
                target: target.copied(alloc)?,
                fstype: fstype.copied(alloc)?,
                options: options.copied(alloc)?,
                via: via.copied(alloc)?,
                flags: *flags,
                shift: *shift,
            },
            Request::SetXattr {
                path,
                name,
                value,
                flags,
            } => Request::SetXattr {
                path: path.copied(alloc)?,
                name: name.copied(alloc)?,
                value: value.copied(alloc)?,
                flags: *flags,
            },
            Request::OpenAt { dirfd, path, flags } => Request::OpenAt {
                dirfd: *dirfd,
                path: path.copied(alloc)?,
                flags: *flags,
            },
            Request::Sysinfo { addr } => Request::Sysinfo { addr: *addr },
            Request::Other { nr } => Request::Other { nr: *nr },
        })
    }

    /// One of its texts, by its place in the row of its call; empty where it has fewer.
    pub fn text(&self, place: u8) -> &[u8]
        ensures { result.now ≡ text_at (called self.now).texts place }
    {
        match (self, place) {
            (Request::Mknod { path, .. }, 0) => path.items(),
            (Request::Mount { source, .. }, 0) => source.items(),
            (Request::Mount { target, .. }, 1) => target.items(),
            (Request::Mount { fstype, .. }, 2) => fstype.items(),
            (Request::Mount { options, .. }, 3) => options.items(),
            (Request::Mount { via, .. }, 4) => via.items(),
            (Request::SetXattr { path, .. }, 0) => path.items(),
            (Request::SetXattr { name, .. }, 1) => name.items(),
            (Request::SetXattr { value, .. }, 2) => value.items(),
            (Request::OpenAt { path, .. }, 0) => path.items(),
            _ => &[],
        }
    }

    /// One of its numbers that has no sign, by its place; 0 in the place of a negative one.
    pub fn natural(&self, place: u8) -> u64
        ensures { result ≡ natural_at (called self.now) place }
    {
        match (self, place) {
            (Request::Mknod { mode, .. }, 0) => u64::from(*mode),
            (Request::Mknod { dev, .. }, 1) => *dev,
            (
                Request::Mknod {
                    dirfd: Some(fd),
                    ..
                },
                2,
            ) => natural(*fd),
            (Request::Mount { flags, .. }, 0) => *flags,
            (Request::Mount { shift, .. }, 1) => u64::from(*shift),
            (Request::SetXattr { flags, .. }, 0) => u64::from(*flags),
            (Request::OpenAt { dirfd, .. }, 0) => natural(*dirfd),
            (Request::OpenAt { flags, .. }, 1) => u64::from(*flags),
            (Request::Sysinfo { addr }, 0) => *addr,
            _ => 0,
        }
    }

    /// One of its descriptors, by its place; 0 in the place of any other number.
    pub fn descriptor(&self, place: u8) -> i32
        ensures { result ≡ descriptor_at (called self.now) place }
    {
        match (self, place) {
            (
                Request::Mknod {
                    dirfd: Some(fd),
                    ..
                },
                2,
            ) => *fd,
            (Request::OpenAt { dirfd, .. }, 0) => *dirfd,
            _ => 0,
        }
    }

    /// The number of the call that asks for it.
    pub fn call(&self) -> i32
        ensures { result ≡ call_of_request self.now }
    {
        match self {
            Request::Mknod { dirfd: None, .. } => calls::MKNOD,
            Request::Mknod { dirfd: Some(_), .. } => calls::MKNODAT,
            Request::Mount { .. } => calls::MOUNT,
            Request::SetXattr { .. } => calls::SETXATTR,
            Request::OpenAt { .. } => calls::OPENAT,
            Request::Sysinfo { .. } => calls::SYSINFO,
            Request::Other { nr } => *nr,
        }
    }
}

/// The texts that were read for a call, in the order of its plan.
#[derive(Debug, Drop)]
pub struct ArgCopy {
    pub texts: Sequence<Text>,
}

/// One of the bytes isn't mapped.
#[derive(Clone, Copy, PartialEq, Eq, Debug)]
pub struct Fault;
