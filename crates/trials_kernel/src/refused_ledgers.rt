//! Ledgers that are refused, and why.

use crate::policies::MAKES_NODES;
use broker_core::deed::Got;
use policy_reader::read_policy;
use script_reader::read_script;
use std::alloc::Global;
use std::test::Fail;
use sys_abi::memory::OrNoMemory;
use worker_ledger::successor::{LedgerError, take_over};

/// The ledger of worker 0 after a receive and the opening of memory and base.
const LEDGER: &str =
    "{\"count\":3,\"own\":[{\"notif\":\"01000000000000000100000000000000850000003e0000c000000000000000000000010000000000b6210000000000000301000000000000000000000000000000000000000000000000000000000000\"},\"ok\",\"ok\"],\"worker\":0}";

/// Why a text is refused as the ledger of a worker that has taken so many answers, of which this one was the last.
fn refused(
    alloc: Global,
    text: &[u8],
    no: u8,
    taken: u64,
    last: Option<&Got<'_>>,
) -> Result<Option<LedgerError>, Fail> {
    let policy = read_policy(alloc, MAKES_NODES.as_bytes())?;
    let script = read_script(alloc, b"prog main\nend\n")?;
    match take_over(alloc, text, &policy, script.figures, no, taken, last) {
        Ok(_successor) => Ok(None),
        Err(OrNoMemory::Refused(error)) => Ok(Some(error)),
        Err(OrNoMemory::NoMemory) => Err(Fail::new("no memory")),
    }
}

#[test]
fn a_ledger_of_another_count_is_stale(rt: HostRuntime) -> Result<(), Fail> {
    let found = refused(rt.alloc(), LEDGER.as_bytes(), 0, 5, Some(&Got::Ok))?;
    let stale = LedgerError::Stale {
        ledger: 3,
        kernel: 5,
    };
    assert_eq!(rt; found, Some(stale));
    Ok(())
}

#[test]
fn a_last_answer_of_another_deed_is_unfit(rt: HostRuntime) -> Result<(), Fail> {
    let found = refused(rt.alloc(), LEDGER.as_bytes(), 0, 4, Some(&Got::Number(3)))?;
    assert_eq!(rt; found, Some(LedgerError::Unfit));
    let found = refused(rt.alloc(), LEDGER.as_bytes(), 0, 4, None)?;
    assert_eq!(rt; found, Some(LedgerError::Unfit));
    Ok(())
}

#[test]
fn other_texts_are_no_ledgers(rt: HostRuntime) -> Result<(), Fail> {
    let found = refused(rt.alloc(), b"{}", 0, 3, Some(&Got::Ok))?;
    assert_eq!(rt; found, Some(LedgerError::NotLedger));
    let found = refused(rt.alloc(), LEDGER.as_bytes(), 1, 3, Some(&Got::Ok))?;
    assert_eq!(rt; found, Some(LedgerError::NotLedger));
    Ok(())
}

#[test]
fn a_ledger_is_taken_over(rt: HostRuntime) -> Result<(), Fail> {
    let found = refused(rt.alloc(), LEDGER.as_bytes(), 0, 3, Some(&Got::Ok))?;
    assert_eq!(rt; found, None);
    let found = refused(rt.alloc(), LEDGER.as_bytes(), 0, 4, Some(&Got::Ok))?;
    assert_eq!(rt; found, None);
    Ok(())
}

/// A copy of the ledger in which another byte stands at a place.
fn damaged(alloc: Global, place: usize, byte: u8) -> Result<Vec<u8>, Fail> {
    let mut text = LEDGER.as_bytes().to_vec(alloc)?;
    if let Some(there) = text.get_mut(place) {
        *there = byte;
    }
    Ok(text)
}

/// How many of the ledgers that differ from it at one place, by this byte, are taken over.
fn taken_over(alloc: Global, byte: u8) -> Result<u32, Fail> {
    let mut count = 0u32;
    for place in 0..LEDGER.len() {
        let text = damaged(alloc, place, byte)?;
        let is_other = text.as_slice() != LEDGER.as_bytes();
        if is_other && refused(alloc, text.as_slice(), 0, 3, Some(&Got::Ok))? == None {
            count = count.saturating_add(1);
        }
    }
    Ok(count)
}

#[test]
fn a_ledger_with_a_byte_of_no_ledger_is_refused(rt: HostRuntime) -> Result<(), Fail> {
    for byte in [0, b' ', b'F', b'z', 127, 255] {
        assert_eq!(rt; taken_over(rt.alloc(), byte)?, 0);
    }
    Ok(())
}

#[test]
fn a_ledger_with_a_mark_out_of_place_is_refused(rt: HostRuntime) -> Result<(), Fail> {
    for byte in [b'"', b'{', b'}', b'[', b',', b':'] {
        assert_eq!(rt; taken_over(rt.alloc(), byte)?, 0);
    }
    Ok(())
}
