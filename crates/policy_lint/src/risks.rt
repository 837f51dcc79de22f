//! Which devices and which file systems are a risk to grant.

use hist_model::request::Kind;

/// A device by which whoever has it reaches the machine's memory, its disks or the kernel.
#[derive(Clone, Copy)]
pub struct Device {
    pub kind: Kind,
    pub major: u32,
    pub minor: u32,
}

/// From the kernel's Documentation/admin-guide/devices.txt: /dev/mem, /dev/kmem and /dev/port; microcode, vfio, uinput, snapshot and
/// the device mapper (major 10); the generic access to SCSI devices (21) and the registers of processors (202); and the first of the
/// disks: IDE (3), loop (7), SCSI (8), MD (9), MMC (179) and those of the extended range (259).
pub const DEVICES: &[Device] = &[
    Device {
        kind: Kind::Chr,
        major: 1,
        minor: 1,
    },
    Device {
        kind: Kind::Chr,
        major: 1,
        minor: 2,
    },
    Device {
        kind: Kind::Chr,
        major: 1,
        minor: 4,
    },
    Device {
        kind: Kind::Chr,
        major: 10,
        minor: 184,
    },
    Device {
        kind: Kind::Chr,
        major: 10,
        minor: 196,
    },
    Device {
        kind: Kind::Chr,
        major: 10,
        minor: 223,
    },
    Device {
        kind: Kind::Chr,
        major: 10,
        minor: 231,
    },
    Device {
        kind: Kind::Chr,
        major: 10,
        minor: 236,
    },
    Device {
        kind: Kind::Chr,
        major: 21,
        minor: 0,
    },
    Device {
        kind: Kind::Chr,
        major: 202,
        minor: 0,
    },
    Device {
        kind: Kind::Blk,
        major: 3,
        minor: 0,
    },
    Device {
        kind: Kind::Blk,
        major: 7,
        minor: 0,
    },
    Device {
        kind: Kind::Blk,
        major: 8,
        minor: 0,
    },
    Device {
        kind: Kind::Blk,
        major: 9,
        minor: 0,
    },
    Device {
        kind: Kind::Blk,
        major: 179,
        minor: 0,
    },
    Device {
        kind: Kind::Blk,
        major: 259,
        minor: 0,
    },
];

/// The block majors of which each device is a disk or a part of one.
pub const DISKS: &[u32] = &[
    3, 7, 8, 9, 22, 65, 66, 67, 68, 69, 70, 71, 179, 252, 253, 254, 259,
];

/// The types of file systems that read an image, whose parsers aren't made for an image of an attacker. The kernel's
/// Documentation/filesystems says so of some, and the maintainers of ext4, xfs and btrfs have said it of theirs; LXD's document of
/// `security.syscalls.intercept.mount.allowed` names the risk, and has programs (`mount.fuse`) for it.
pub const IMAGES: &[&'static str] = &[
    "ext4", "ext3", "ext2", "xfs", "btrfs", "f2fs", "vfat", "ntfs3", "ntfs", "exfat", "iso9660",
    "udf", "squashfs", "erofs", "hfsplus", "jfs", "reiserfs", "nilfs2", "ocfs2", "gfs2",
    "bcachefs",
];
