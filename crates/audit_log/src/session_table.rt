//! The table of sessions while the events are gone through.

ghost use Rattle.std.specs.Prelude.{◌≡◌, ◌<◌, ◌++◌, [], false, length, List, Some, OnOk, Ok, map};
ghost use Rattle.hist_model.specs.Copies.{plan};
ghost use Rattle.hist_model.specs.Kinds.{skips};
ghost use Rattle.hist_model.specs.Look.{ev};
ghost use Rattle.hist_model.specs.Sessions.{fetched_by};
ghost use Rattle.hist_model.specs.declared.event.Actor.TheVariants.{Worker};
ghost use Rattle.hist_model.specs.declared.event.What.TheVariants.{Recv};
ghost use Rattle.hist_model.specs.declared.policy.Rule.{Rule};
ghost use Rattle.arg_capture.specs.Captures.{Follows};
ghost use Rattle.audit_log.specs.Begun.{Begun};
ghost use Rattle.audit_log.specs.Sessions.{after_event, started, with_event};
ghost use Rattle.audit_log.specs.SessionTable.{AllShut, IsGrown, IsRowStepped, IsStepped, StandsFor};

use crate::session::SessionRecord;
use crate::session_facts::Facts;
use crate::session_stages::Stages;
use arg_capture::{Capture, Plan};
use hist_model::event::{Actor, Back, Event, What};
use hist_model::policy::Policy;
use hist_model::report::Finding;
use std::alloc::Global;
use sys_abi::memory::NoMemory;
use sys_abi::wire::{Notif, SeccompData};

/// What a worker is in.
#[derive(Drop)]
struct Current {
    /// The row of the session that its newest notification began.
    row: Option<usize>,
    /// That notification.
    notif: Notif,
    /// What is read in that session.
    capture: Capture,
}

/// The sessions that were begun, from the oldest on, and which of them each worker is in.
#[derive(Drop)]
pub(crate) struct SessionTable {
    alloc: Global,
    pub(crate) rows: Vec<SessionRecord>,
    /// By the worker's number, up to the greatest of those that began a session.
    workers: Vec<Current>,
}

/// Whether the step is none.
fn is_skip(what: &What) -> bool
    ensures { result ≡ skips what.now }
{
    matches!(what, What::Skip)
}

/// The notification that a step receives.
fn received(what: &What) -> Option<Notif>
    ensures { result ≡ fetched_by what.now }
{
    match what {
        What::Recv { answer: Ok(notif) } => Some(*notif),
        _ => None,
    }
}

/// One more step, which has this place, in the session of a row, which received the notification, and whose reads the capture takes.
fn advance_row(
    policy: &Policy,
    place: usize,
    rows: &mut Vec<SessionRecord>,
    row: usize,
    notif: &Notif,
    capture: &mut Capture,
    what: &What,
) -> Result<(), NoMemory>
    ensures { OnOk result (IsRowStepped policy.now.rules place what.now notif.now notif.now capture.old capture.new rows.old.items rows.new.items (Some row)) }
{
    if row >= rows.len() {
        return Ok(());
    }
    let session = &mut rows[row];
    session.step(policy, place, notif, capture, what)
}

impl Current {
    /// One more step of the worker, which has this place, in the session that it is in.
    fn step(
        &mut self,
        policy: &Policy,
        place: usize,
        rows: &mut Vec<SessionRecord>,
        what: &What,
    ) -> Result<(), NoMemory>
        ensures { OnOk result (IsStepped policy.now.rules place what.now self.old self.new rows.old.items rows.new.items) }
    {
        match self.row {
            Some(row) => advance_row(
                policy,
                place,
                rows,
                row,
                &self.notif,
                &mut self.capture,
                what,
            ),
            None => Ok(()),
        }
    }

    /// The worker begins a session, which has a row, with a notification.
    fn begin(&mut self, alloc: Global, row: usize, notif: &Notif) -> Result<(), NoMemory>
        ensures row { OnOk result (self.new.row ≡ Some row) }
        ensures notif { OnOk result (self.new.notif ≡ notif.now) }
        ensures follows { OnOk result (Follows (plan notif.now.call.nr notif.now.call.args) [] self.new.capture) }
    {
        self.capture = Capture::new(alloc, Plan::of(notif.call.nr, &notif.call.args))?;
        self.notif = *notif;
        self.row = Some(row);
        Ok(())
    }
}

/// Stands for the notification of a worker that received none.
const NO_NOTIF: Notif = Notif {
    id: 0,
    pid: 0,
    flags: 0,
    call: SeccompData {
        nr: 0,
        arch: 0,
        ip: 0,
        args: [0; 6],
    },
};

/// Gives each worker up to this number a place among the workers. Most histories have few of them.
fn reach(alloc: Global, workers: &mut Vec<Current>, number: usize) -> Result<(), NoMemory>
    ensures grown { OnOk result (IsGrown workers.old.items workers.new.items) }
    ensures there { OnOk result (number < length workers.new.items) }
{
    while workers.len() <= number {
        workers.push(Current {
            row: None,
            notif: NO_NOTIF,
            capture: Capture::nothing(alloc),
        })?;
    }
    Ok(())
}

impl SessionTable {
    /// Before all events.
    pub(crate) fn new(alloc: Global) -> SessionTable
        ensures { (rules : List Rule) → StandsFor rules [] result }
    {
        SessionTable {
            alloc,
            rows: Vec::new(alloc),
            workers: Vec::new(alloc),
        }
    }

    /// One more step of a worker, which has this place and is no skip, in the session that it is in.
    fn advance(
        &mut self,
        policy: &Policy,
        place: usize,
        worker: u8,
        what: &What,
    ) -> Result<(), NoMemory>
        requires { skips what.now ≡ false }
        ensures { (S : List Begun) → StandsFor policy.now.rules S self.old → OnOk result (StandsFor policy.now.rules (map (with_event place (ev (Worker worker) what.now)) S) self.new) }
    {
        let number = usize::from(worker);
        if number >= self.workers.len() {
            return Ok(());
        }
        let current = &mut self.workers[number];
        current.step(policy, place, &mut self.rows, what)
    }

    /// A worker, all of whose sessions are over, begins one with the notification at a place.
    fn begin(&mut self, place: usize, worker: u8, notif: &Notif) -> Result<(), NoMemory>
        ensures { (rules : List Rule) (S : List Begun) → StandsFor rules S self.old → AllShut worker S → OnOk result (StandsFor rules (S ++ started place (Worker worker) (Recv (Ok notif.now))) self.new) }
    {
        let number = usize::from(worker);
        reach(self.alloc, &mut self.workers, number)?;
        let row = self.rows.len();
        let facts = Facts::BEGUN;
        let back: Option<Back> = None;
        self.rows.push(SessionRecord {
            place,
            worker,
            id: notif.id,
            nr: notif.call.nr,
            facts,
            back,
            found: Finding::Open,
            stages: Stages::NONE,
        })?;
        let current = &mut self.workers[number];
        current.begin(self.alloc, row, notif)
    }

    /// One more step of a worker, which has this place.
    fn step(
        &mut self,
        policy: &Policy,
        place: usize,
        worker: u8,
        what: &What,
    ) -> Result<(), NoMemory>
        ensures { (S : List Begun) → StandsFor policy.now.rules S self.old → OnOk result (StandsFor policy.now.rules (after_event place (ev (Worker worker) what.now) S) self.new) }
    {
        if is_skip(what) {
            return Ok(());
        }
        self.advance(policy, place, worker, what)?;
        match received(what) {
            Some(notif) => self.begin(place, worker, &notif),
            None => Ok(()),
        }
    }

    /// One more event, which has this place.
    pub(crate) fn note(
        &mut self,
        policy: &Policy,
        place: usize,
        event: &Event,
    ) -> Result<(), NoMemory>
        ensures { (S : List Begun) → StandsFor policy.now.rules S self.old → OnOk result (StandsFor policy.now.rules (after_event place event.now S) self.new) }
    {
        match &event.who {
            Actor::Worker(worker) => self.step(policy, place, *worker, &event.what),
            _ => Ok(()),
        }
    }
}
