//! The structures that a broker hands over, beside bytes by the kernel's header: an answer, and a request for a descriptor.

use hist_model::event::Back;
use listener::{parse_put, parse_send, response};
use std::test::Fail;
use sys_abi::errno::Errno;
use sys_abi::wire::{Addfd, O_CLOEXEC, Resp};

#[test]
fn an_answer_is_read_off_its_bytes(rt: HostRuntime) -> Result<(), Fail> {
    // The id 0x0102030405060708, the value 0, the error -13 (EACCES), no flag.
    let denied = [
        8, 7, 6, 5, 4, 3, 2, 1, 0, 0, 0, 0, 0, 0, 0, 0, 0xf3, 0xff, 0xff, 0xff, 0, 0, 0, 0,
    ];
    let resp = Resp {
        id: 0x0102030405060708,
        val: 0,
        error: -13,
        flags: 0,
    };
    assert_eq!(rt; parse_send(&denied), Ok(resp));
    assert_eq!(rt;
        response(resp.id, Back::Fail(Errno::EACCES)).to_bytes(),
        denied
    );
    let mut continued = [0; 24];
    continued[20] = 1;
    assert_eq!(rt; response(0, Back::Continue).to_bytes(), continued);
    continued[0] = 2;
    continued[20] = 0;
    continued[8] = 3;
    assert_eq!(rt; response(2, Back::Value(3)).to_bytes(), continued);
    Ok(())
}

#[test]
fn a_request_is_read_off_its_bytes(rt: HostRuntime) -> Result<(), Fail> {
    // The id 0x0102030405060708, SETFD and SEND, the descriptor 5 as number 9, closed on execve.
    let bytes = [
        8, 7, 6, 5, 4, 3, 2, 1, 3, 0, 0, 0, 5, 0, 0, 0, 9, 0, 0, 0, 0, 0, 8, 0,
    ];
    let a = Addfd {
        id: 0x0102030405060708,
        flags: 3,
        srcfd: 5,
        newfd: 9,
        newfd_flags: O_CLOEXEC,
    };
    assert_eq!(rt; parse_put(&bytes, true), Ok(a));
    Ok(())
}
