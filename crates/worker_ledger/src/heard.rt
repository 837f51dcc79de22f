//! An answer that a ledger keeps.

ghost use Rattle.std.specs.Prelude.{◌≡◌, IfOk, OnOk};
ghost use Rattle.hex.specs.Hex.{IsBytes, encode_lower};
ghost use Rattle.serde_json.specs.Data.{string};
ghost use Rattle.serde_json.specs.View.{view};
ghost use Rattle.broker_core.specs.Answers.{told};
ghost use Rattle.worker_ledger.specs.Heard.{IsHeard, heard};
ghost use Rattle.worker_ledger.specs.Notes.{is_received};
ghost use Rattle.worker_ledger.specs.Data.{answer_data, one_member};
ghost use Rattle.worker_ledger.specs.Ledgers.{IsAnswer};

use broker_core::deed::Got;
use serde_json::{Map, Value, put};
use std::alloc::Global;
use sys_abi::errno::Errno;
use sys_abi::memory::NoMemory;
use sys_abi::wire::Notif;

/// An answer that a worker was given, with bytes of its own.
#[derive(Drop)]
pub enum Heard {
    /// A notification was received.
    Notif(Notif),
    /// The deed was done.
    Done,
    /// These bytes were read.
    Bytes(Vec<u8>),
    /// The number that a descriptor got.
    Number(u32),
    /// The deed failed.
    Fault(Errno),
}

/// Bytes as digits of base 16.
fn digits_of(alloc: Global, bytes: &[u8]) -> Result<Value, NoMemory>
    ensures value { IfOk result (λ v. view v ≡ string (encode_lower bytes.now)) }
    ensures bytes { IsBytes bytes.now }
{
    Ok(Value::String(hex::encode(alloc, bytes)?))
}

/// An object with one member.
fn one_member(alloc: Global, key: &str, value: Value) -> Result<Value, NoMemory>
    ensures { IfOk result (λ v. view v ≡ one_member key.now (view value)) }
{
    let mut members = Map::new(alloc);
    put(&mut members, alloc, key, value)?;
    Ok(Value::Object(members))
}

impl Heard {
    /// The answer as a worker takes it.
    pub fn got(&self) -> Got<'_>
        ensures { told result ≡ heard self.now }
    {
        match self {
            Heard::Notif(notif) => Got::Notif(*notif),
            Heard::Done => Got::Ok,
            Heard::Bytes(bytes) => Got::Bytes(bytes.as_slice()),
            Heard::Number(number) => Got::Number(*number),
            Heard::Fault(error) => Got::Fault(*error),
        }
    }

    /// It begins a session.
    pub(crate) fn is_notif(&self) -> bool
        ensures { result ≡ is_received (heard self.now) }
    {
        matches!(self, Heard::Notif(_))
    }

    /// Its value of JSON.
    pub(crate) fn value(&self, alloc: Global) -> Result<Value, NoMemory>
        ensures value { IfOk result (λ v. view v ≡ answer_data (heard self.now)) }
        ensures answer { OnOk result (IsAnswer (heard self.now)) }
    {
        match self {
            Heard::Notif(notif) => {
                let digits = digits_of(alloc, &notif.to_bytes())?;
                one_member(alloc, "notif", digits)
            }
            Heard::Done => Ok(Value::try_from_str(alloc, "ok")?),
            Heard::Bytes(bytes) => {
                let digits = digits_of(alloc, bytes.as_slice())?;
                one_member(alloc, "bytes", digits)
            }
            Heard::Number(number) => one_member(alloc, "number", Value::from(*number)),
            Heard::Fault(error) => one_member(alloc, "fault", Value::from(error.number())),
        }
    }
}

/// An answer with bytes of its own; none where there is no answer yet.
pub fn heard_of(alloc: Global, got: &Got<'_>) -> Result<Option<Heard>, NoMemory>
    ensures { IfOk result (λ o. IsHeard (told got.now) o) }
{
    Ok(match got {
        Got::Notif(notif) => Some(Heard::Notif(*notif)),
        Got::Ok => Some(Heard::Done),
        Got::Bytes(bytes) => Some(Heard::Bytes(Vec::from_slice(alloc, bytes)?)),
        Got::Number(number) => Some(Heard::Number(*number)),
        Got::NotYet => None,
        Got::Fault(error) => Some(Heard::Fault(*error)),
    })
}
