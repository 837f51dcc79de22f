//! The rows of the broker's workers.

ghost use Rattle.std.specs.Prelude.{◌≡◌, ◌++◌, ◌≤◌, true, set, replicate, OnOk, Some};
ghost use Rattle.std.specs.List.{count_by};
ghost use Rattle.key_bytes.specs.Parts.{list_part, number_part, option_part};
ghost use Rattle.model_kernel.specs.Keys.{node_part, worker_part};
ghost use Rattle.model_kernel.specs.Rows.{idle, row_of, has_session};

use hist_model::event::WORKERS;
use hist_model::request::NodeRef;
use key_bytes::{push_flag, push_number, push_option};
use std::marker::Model;
use sys_abi::memory::NoMemory;

/// One row for each worker.
const ROWS: usize = WORKERS as usize;

/// What is kept of one worker.
#[derive(Clone, Copy, PartialEq, Eq, Debug)]
pub(crate) struct WorkerRow {
    /// The directory from which relative paths go, if one is open.
    base: Option<NodeRef>,
    /// The group whose memory is open, by its ordinal.
    memory: Option<u32>,
    /// It received a notification, and has not let go.
    has_session: bool,
}

impl WorkerRow {
    const IDLE: WorkerRow = WorkerRow {
        base: None,
        memory: None,
        has_session: false,
    };
}

/// Adds the directory that is open, if one is.
fn push_base(key: &mut Vec<u8>, base: Option<NodeRef>) -> Result<(), NoMemory>
    ensures { OnOk result (key.new.items ≡ key.old.items ++ option_part node_part base) }
{
    match base {
        None => push_option(key, None),
        Some(node) => push_option(key, Some(u64::from(node.ordinal))),
    }
}

/// Adds the group whose memory is open, if one is.
fn push_memory(key: &mut Vec<u8>, memory: Option<u32>) -> Result<(), NoMemory>
    ensures { OnOk result (key.new.items ≡ key.old.items ++ option_part number_part memory) }
{
    match memory {
        None => push_option(key, None),
        Some(group) => push_option(key, Some(u64::from(group))),
    }
}

/// Adds what is kept of one worker.
fn push_worker(key: &mut Vec<u8>, row: &WorkerRow) -> Result<(), NoMemory>
    ensures { OnOk result (key.new.items ≡ key.old.items ++ worker_part row.now) }
{
    push_base(key, row.base)?;
    push_memory(key, row.memory)?;
    push_flag(key, row.has_session)
}

/// Adds what is kept of workers, with how many there are before them.
fn push_workers(key: &mut Vec<u8>, rows: &[WorkerRow]) -> Result<(), NoMemory>
    ensures { OnOk result (key.new.items ≡ key.old.items ++ list_part worker_part rows.now) }
{
    push_number(key, rows.len() as u64)?;
    for row in rows {
        push_worker(key, row)?;
    }
    Ok(())
}

/// What the workers 0 to 16 have open. Contracts see one row for each of them, in the order of their numbers.
#[derive(Drop)]
pub(crate) struct WorkerRows {
    rows: [WorkerRow; ROWS],
    /// How many sessions are open.
    sessions: u8,
}

impl Model for WorkerRows {
    ghost use Rattle.std.specs.Prelude.{◌≡◌, List};
    ghost use Rattle.std.specs.List.{count_by};
    ghost use Rattle.model_kernel.specs.declared.rows.WorkerRow.{WorkerRow};
    ghost use Rattle.model_kernel.specs.Rows.{has_session};

    ghost Value = { List WorkerRow };

    ghost view = { λ r. r.rows };

    ghost invariant = { λ r. r.sessions ≡ count_by has_session r.rows };
}

impl WorkerRows {
    /// Nobody has opened anything.
    pub(crate) fn new() -> WorkerRows
        ensures { result ≡ replicate 17 idle }
    {
        WorkerRows {
            rows: [WorkerRow::IDLE; ROWS],
            sessions: 0,
        }
    }

    /// Adds the part of these rows in a key.
    pub(crate) fn write_key(&self, key: &mut Vec<u8>) -> Result<(), NoMemory>
        ensures { OnOk result (key.new.items ≡ key.old.items ++ list_part worker_part self.now) }
    {
        push_workers(key, &self.rows)
    }

    /// What is kept of a worker; nothing is opened by one above 16.
    fn row(&self, worker: u8) -> WorkerRow
        ensures { result ≡ row_of self.now worker }
    {
        match self.rows.get(usize::from(worker)) {
            Some(row) => *row,
            None => WorkerRow::IDLE,
        }
    }

    /// Writes what is kept of a worker.
    fn set(&mut self, worker: u8, row: WorkerRow)
        requires { worker ≤ 16 }
        ensures { self.new ≡ set self.old worker row }
    {
        let place = usize::from(worker);
        let had_session = self.rows[place].has_session;
        self.sessions = self.sessions - u8::from(had_session) + u8::from(row.has_session);
        self.rows[place] = row;
    }

    /// The directory that a worker has opened for relative paths. None where it has opened none since it last let go.
    pub(crate) fn base(&self, worker: u8) -> Option<NodeRef>
        ensures { result ≡ (row_of self.now worker).base }
    {
        self.row(worker).base
    }

    /// The ordinal of the group whose memory a worker has open. None exactly where it has none open.
    pub(crate) fn memory(&self, worker: u8) -> Option<u32>
        ensures { result ≡ (row_of self.now worker).memory }
    {
        self.row(worker).memory
    }

    /// How many workers are inside a notification.
    pub(crate) fn open_sessions(&self) -> u8
        ensures { result ≡ count_by has_session self.now }
    {
        self.sessions
    }

    /// A worker received a notification. A receive that found none changes nothing.
    pub(crate) fn received(&mut self, worker: u8)
        requires { worker ≤ 16 }
        ensures { self.new ≡ set self.old worker (record (row_of self.old worker) { has_session = true }) }
    {
        let row = self.row(worker);
        self.set(
            worker,
            WorkerRow {
                has_session: true,
                ..row
            },
        );
    }

    /// A worker opened the memory of a group, which has this ordinal. An opening that failed changes nothing.
    pub(crate) fn opened_memory(&mut self, worker: u8, group: u32)
        requires { worker ≤ 16 }
        ensures { self.new ≡ set self.old worker (record (row_of self.old worker) { memory = Some group }) }
    {
        let row = self.row(worker);
        let memory = Some(group);
        self.set(worker, WorkerRow { memory, ..row });
    }

    /// A worker opened this directory for relative paths. An opening that failed changes nothing.
    pub(crate) fn opened_base(&mut self, worker: u8, base: Option<NodeRef>)
        requires { worker ≤ 16 }
        ensures { self.new ≡ set self.old worker (record (row_of self.old worker) { base = base }) }
    {
        let row = self.row(worker);
        self.set(worker, WorkerRow { base, ..row });
    }

    /// A worker closed what it had opened.
    pub(crate) fn let_go(&mut self, worker: u8)
        requires { worker ≤ 16 }
        ensures { self.new ≡ set self.old worker idle }
    {
        self.set(worker, WorkerRow::IDLE);
    }
}
