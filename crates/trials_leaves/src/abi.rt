//! What the clauses mean, by values from the manual pages, and the texts that no clause states.

use bitflags::Flags;
use std::fmt::Write;
use std::process::Abort;
use sys_abi::calls::{MKNODAT, call_name, call_number};
use sys_abi::device::{makedev, split_dev};
use sys_abi::errno::Errno;
use sys_abi::flags::{MountFlags, XattrFlags};
use sys_abi::memory::{NoMemory, OrNoMemory};
use sys_abi::wire::{
    AUDIT_ARCH_X86_64, Addfd, Notif, O_CLOEXEC, Resp, SECCOMP_ADDFD_FLAG_SEND,
    SECCOMP_ADDFD_FLAG_SETFD, SeccompData, Sysinfo,
};

/// The numbers of errno(3) on x86-64.
const ERRORS: [(u16, &'static str); 23] = [
    (1, "EPERM"),
    (2, "ENOENT"),
    (3, "ESRCH"),
    (4, "EINTR"),
    (7, "E2BIG"),
    (9, "EBADF"),
    (10, "ECHILD"),
    (11, "EAGAIN"),
    (13, "EACCES"),
    (14, "EFAULT"),
    (16, "EBUSY"),
    (17, "EEXIST"),
    (19, "ENODEV"),
    (20, "ENOTDIR"),
    (22, "EINVAL"),
    (24, "EMFILE"),
    (34, "ERANGE"),
    (36, "ENAMETOOLONG"),
    (38, "ENOSYS"),
    (40, "ELOOP"),
    (61, "ENODATA"),
    (115, "EINPROGRESS"),
    (122, "EDQUOT"),
];

#[test]
fn errors_have_the_numbers_of_the_manual(rt: HostRuntime) {
    assert_errors(&rt, &ERRORS);
    assert_eq!(rt; Errno::of(20), Some(Errno::ENOTDIR));
    assert_eq!(rt; Errno::of(0), None);
    assert_eq!(rt; Errno::of(4096), None);
    assert_eq!(rt; Errno::from_name(b"EIO"), None);
}

fn assert_errors(rt: &impl Abort, table: &[(u16, &'static str)]) {
    for (number, name) in table {
        let error = Errno::of(*number);
        assert_eq!(rt; error.map(Errno::number), Some(*number));
        assert_eq!(rt; error.and_then(Errno::name), Some(*name));
        assert_eq!(rt; Errno::from_name(name.as_bytes()), error, "{name}");
    }
}

#[test]
fn calls_have_the_numbers_of_x86_64(rt: HostRuntime) {
    let table = [
        (3, "close"),
        (39, "getpid"),
        (99, "sysinfo"),
        (133, "mknod"),
        (165, "mount"),
        (188, "setxattr"),
        (257, "openat"),
        (259, "mknodat"),
    ];
    for (number, name) in table {
        assert_eq!(rt; call_number(name.as_bytes()), Some(number), "{name}");
        assert_eq!(rt; call_name(number), Some(name));
    }
    for number in [-1, 0, 65536 + 3] {
        assert_eq!(rt; call_name(number), None, "{number}");
    }
    assert_eq!(rt; call_number(b"mknodat"), Some(MKNODAT));
    assert_eq!(rt; call_number(b"open"), None);
}

#[test]
fn devices_have_the_numbers_of_makedev(rt: HostRuntime) {
    let table = [
        (1, 3, 259),
        (1, 1, 257),
        (1, 5, 261),
        (5, 0, 1280),
        (259, 65537, 0x10010301),
        (4095, 1048575, 0xffffffff),
    ];
    for (major, minor, dev) in table {
        assert_eq!(rt; makedev(major, minor), dev, "{major}:{minor}");
        assert_eq!(rt; split_dev(dev), (major, minor), "{dev}");
    }
}

#[test]
fn refusals_show_their_cause(rt: HostRuntime) {
    let mut text = String::new(rt.alloc());
    assert!(rt; write!(text, "{}", NoMemory).is_ok());
    let refused: OrNoMemory<u32> = OrNoMemory::Refused(7);
    assert!(rt; write!(text, ", {refused}").is_ok());
    let dry: OrNoMemory<u32> = OrNoMemory::from(NoMemory);
    assert!(rt; write!(text, ", {dry}").is_ok());
    assert_eq!(rt; text.as_str(), "no memory, 7, no memory");
}

/// A call of mknodat with a relative path.
const MKNODAT_CALL: SeccompData = SeccompData {
    nr: 259,
    arch: AUDIT_ARCH_X86_64,
    ip: 0x7f0102030405,
    args: [0xffffffffffffff9c, 0x10000, 0o020666, 259, 0, u64::MAX],
};

/// The number of no call, and arguments that tell their places apart.
const LEAST_CALL: SeccompData = SeccompData {
    nr: i32::MIN,
    arch: u32::MAX,
    ip: 0,
    args: [1, 2, 3, 4, 5, 6],
};

#[test]
fn calls_lie_as_in_seccomp_data(rt: HostRuntime) {
    check_call(
        &rt,
        MKNODAT_CALL,
        b"\x03\x01\0\0\x3e\0\0\xc0\x05\x04\x03\x02\x01\x7f\0\0\
        \x9c\xff\xff\xff\xff\xff\xff\xff\0\0\x01\0\0\0\0\0\
        \xb6\x21\0\0\0\0\0\0\x03\x01\0\0\0\0\0\0\
        \0\0\0\0\0\0\0\0\xff\xff\xff\xff\xff\xff\xff\xff",
    );
    check_call(
        &rt,
        LEAST_CALL,
        b"\0\0\0\x80\xff\xff\xff\xff\0\0\0\0\0\0\0\0\
        \x01\0\0\0\0\0\0\0\x02\0\0\0\0\0\0\0\
        \x03\0\0\0\0\0\0\0\x04\0\0\0\0\0\0\0\
        \x05\0\0\0\0\0\0\0\x06\0\0\0\0\0\0\0",
    );
}

fn check_call(rt: &impl Abort, call: SeccompData, bytes: &[u8; 64]) {
    assert_eq!(rt; call.to_bytes().as_slice(), bytes.as_slice());
    assert_eq!(rt; SeccompData::from_bytes(bytes), call);
}

#[test]
fn notifications_lie_as_in_seccomp_notif(rt: HostRuntime) {
    let notif = Notif {
        id: 0x1122334455667788,
        pid: 4242,
        flags: 0x80000000,
        call: LEAST_CALL,
    };
    let bytes = b"\x88\x77\x66\x55\x44\x33\x22\x11\x92\x10\0\0\0\0\0\x80\
        \0\0\0\x80\xff\xff\xff\xff\0\0\0\0\0\0\0\0\
        \x01\0\0\0\0\0\0\0\x02\0\0\0\0\0\0\0\
        \x03\0\0\0\0\0\0\0\x04\0\0\0\0\0\0\0\
        \x05\0\0\0\0\0\0\0\x06\0\0\0\0\0\0\0";
    assert_eq!(rt; notif.to_bytes().as_slice(), bytes.as_slice());
    assert_eq!(rt; Notif::from_bytes(bytes), notif);
}

#[test]
fn answers_lie_as_in_seccomp_notif_resp(rt: HostRuntime) {
    check_resp(
        &rt,
        Resp {
            id: 0x0102030405060708,
            val: 0,
            error: -17,
            flags: 0,
        },
        b"\x08\x07\x06\x05\x04\x03\x02\x01\0\0\0\0\0\0\0\0\xef\xff\xff\xff\0\0\0\0",
    );
    check_resp(
        &rt,
        Resp {
            id: u64::MAX,
            val: -2,
            error: i32::MAX,
            flags: 1,
        },
        b"\xff\xff\xff\xff\xff\xff\xff\xff\xfe\xff\xff\xff\xff\xff\xff\xff\xff\xff\xff\x7f\x01\0\0\0",
    );
    check_resp(
        &rt,
        Resp {
            id: 0,
            val: i64::MIN,
            error: i32::MIN,
            flags: u32::MAX,
        },
        b"\0\0\0\0\0\0\0\0\0\0\0\0\0\0\0\x80\0\0\0\x80\xff\xff\xff\xff",
    );
}

fn check_resp(rt: &impl Abort, resp: Resp, bytes: &[u8; 24]) {
    assert_eq!(rt; resp.to_bytes().as_slice(), bytes.as_slice());
    assert_eq!(rt; Resp::from_bytes(bytes), resp);
}

#[test]
fn injections_lie_as_in_seccomp_notif_addfd(rt: HostRuntime) {
    check_addfd(
        &rt,
        Addfd {
            id: 7,
            flags: SECCOMP_ADDFD_FLAG_SETFD,
            srcfd: 5,
            newfd: 0x12345678,
            newfd_flags: O_CLOEXEC,
        },
        b"\x07\0\0\0\0\0\0\0\x01\0\0\0\x05\0\0\0\x78\x56\x34\x12\0\0\x08\0",
    );
    check_addfd(
        &rt,
        Addfd {
            id: 0x8000000000000000,
            flags: SECCOMP_ADDFD_FLAG_SEND,
            srcfd: u32::MAX,
            newfd: 0,
            newfd_flags: 0,
        },
        b"\0\0\0\0\0\0\0\x80\x02\0\0\0\xff\xff\xff\xff\0\0\0\0\0\0\0\0",
    );
}

fn check_addfd(rt: &impl Abort, addfd: Addfd, bytes: &[u8; 24]) {
    assert_eq!(rt; addfd.to_bytes().as_slice(), bytes.as_slice());
    assert_eq!(rt; Addfd::from_bytes(bytes), addfd);
}

#[test]
fn figures_lie_as_in_sysinfo(rt: HostRuntime) {
    let told = Sysinfo {
        uptime: 0x0101,
        loads: [0x0202, 0x0303, 0x0404],
        totalram: 0x0505,
        freeram: 0x0606,
        sharedram: 0x0707,
        bufferram: 0x0808,
        totalswap: 0x0909,
        freeswap: u64::MAX,
        procs: 0x0b0a,
        totalhigh: 0x0c0c,
        freehigh: 0x0d0d,
        mem_unit: 0x0e0f1011,
    };
    let bytes = b"\x01\x01\0\0\0\0\0\0\x02\x02\0\0\0\0\0\0\
        \x03\x03\0\0\0\0\0\0\x04\x04\0\0\0\0\0\0\
        \x05\x05\0\0\0\0\0\0\x06\x06\0\0\0\0\0\0\
        \x07\x07\0\0\0\0\0\0\x08\x08\0\0\0\0\0\0\
        \x09\x09\0\0\0\0\0\0\xff\xff\xff\xff\xff\xff\xff\xff\
        \x0a\x0b\0\0\0\0\0\0\x0c\x0c\0\0\0\0\0\0\
        \x0d\x0d\0\0\0\0\0\0\x11\x10\x0f\x0e\0\0\0\0";
    assert_eq!(rt; told.to_bytes().as_slice(), bytes.as_slice());
}

#[test]
fn flags_have_the_bits_of_the_manual(rt: HostRuntime) {
    for (name, bits) in [
        ("RDONLY", 1),
        ("NOSUID", 2),
        ("NODEV", 4),
        ("NOEXEC", 8),
        ("REMOUNT", 32),
        ("BIND", 4096),
        ("MOVE", 8192),
    ] {
        assert_eq!(rt;
            MountFlags::from_name(name),
            Some(MountFlags::from_bits_retain(bits)),
            "{name}"
        );
    }
    for (name, bits) in [("CREATE", 1), ("REPLACE", 2)] {
        assert_eq!(rt;
            XattrFlags::from_name(name),
            Some(XattrFlags::from_bits_retain(bits)),
            "{name}"
        );
    }
    assert_eq!(rt; MountFlags::from_bits(16), None);
    assert_eq!(rt;
        MountFlags::from_bits(4096).map(|set| set.intersects(MountFlags::BIND)),
        Some(true)
    );
    assert_eq!(rt; XattrFlags::all().bits(), 3);
}
