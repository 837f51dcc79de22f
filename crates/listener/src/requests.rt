//! The requests for descriptors that workers have put and not taken.

ghost use Rattle.std.specs.Prelude.{◌≡◌, ◌≤◌, ◌<◌, ◌++◌, ◌∷◌, [], Option, Some, None, IfOk, OnOk, true, false, length, filter, find, position, slice_index_or, option_map};
ghost use Rattle.std.specs.Option.{option_copied};
ghost use Rattle.key_bytes.specs.Parts.{list_part};
ghost use Rattle.listener.specs.Keys.{request_part};
ghost use Rattle.listener.specs.Requests.{is_of, is_waiting, has_request, waiting, without, new_request};
ghost use Rattle.listener.specs.State.{told};
ghost use Rattle.listener.specs.declared.requests.Request.{Request as RequestData};

use crate::keys::push_requests;
use hist_model::event::WORKERS;
use std::alloc::Global;
use std::marker::Model;
use sys_abi::errno::Errno;
use sys_abi::memory::NoMemory;
use sys_abi::wire::Addfd;

/// Room for one request of each worker.
const ROOM: usize = WORKERS as usize;

/// A request for a descriptor.
#[derive(Clone, Copy, PartialEq, Eq, Debug)]
pub struct Request {
    pub worker: u8,
    pub asked: Addfd,
    /// What the installation answered.
    pub result: Option<Result<u32, Errno>>,
}

/// The requests of the workers 0 to 16, one at most for each. Contracts see them as a list, in the order in which they were
/// put.
#[derive(Drop)]
pub struct Requests {
    requests: Vec<Request>,
}

impl Model for Requests {
    ghost use Rattle.std.specs.Prelude.{List, vec_capacity};
    ghost use Rattle.listener.specs.declared.requests.Request.{Request};
    ghost use Rattle.listener.specs.Requests.{AreKept};

    ghost Value = { List Request };

    ghost view = { λ r. r.requests.items };

    ghost invariant = { λ r. AreKept r.requests.items (vec_capacity r.requests) };
}

impl Requests {
    /// No requests. All memory that they will ever need is taken here.
    pub fn new(alloc: Global) -> Result<Requests, NoMemory>
        ensures { IfOk result (λ r. r ≡ []) }
    {
        Ok(Requests {
            requests: Vec::with_capacity(alloc, ROOM)?,
        })
    }

    /// Adds the part of these requests in a key.
    pub fn write_key(&self, key: &mut Vec<u8>) -> Result<(), NoMemory>
        ensures { OnOk result (key.new.items ≡ key.old.items ++ list_part request_part self.now) }
    {
        push_requests(key, &self.requests)
    }

    /// Whether a worker has a request.
    pub fn has_request(&self, worker: u8) -> bool
        ensures { result ≡ has_request self.now worker }
    {
        has_request(&self.requests, worker)
    }

    /// A worker's request, if it has one.
    pub fn of(&self, worker: u8) -> Option<Request>
        ensures { result ≡ find (is_of worker) self.now }
    {
        first_of(&self.requests, worker).copied()
    }

    /// The place of a worker's request, which it has.
    fn place_of(&self, worker: u8) -> usize
        requires { has_request self.now worker ≡ true }
        ensures bound { result < length self.now }
        ensures is_its { (d : Request) → is_of worker (slice_index_or self.now result d) ≡ true }
    {
        let Some(place) = position(&self.requests, worker) else {
            unreachable!()
        };
        place
    }

    /// Puts the request of a worker that has none, as the last one.
    pub fn put(&mut self, worker: u8, a: Addfd)
        requires known { worker ≤ 16 }
        requires free { has_request self.old worker ≡ false }
        ensures put { self.new ≡ self.old ++ new_request worker a ∷ [] }
    {
        self.requests.push_reserved(Request {
            worker,
            asked: a,
            result: None,
        });
    }

    /// How many requests for this id have no result.
    pub fn queued(&self, id: u64) -> u32
        ensures { result ≡ length (waiting id self.now) }
    {
        count_waiting(&self.requests, id) as u32
    }

    /// What the oldest request for this id asks for that has no result: None exactly where there is none.
    pub fn oldest(&self, id: u64) -> Option<Addfd>
        ensures { result ≡ option_map (λ (q : RequestData). q.asked) (find (is_waiting id) self.now) }
    {
        match first_waiting(&self.requests, id) {
            Some(request) => Some(request.asked),
            None => None,
        }
    }

    /// Notes what the installation of the oldest request for this id answered.
    pub fn done(&mut self, id: u64, answer: Result<u32, Errno>)
        ensures { self.new ≡ told id answer self.old }
    {
        if let Some(place) = waiting_place(&self.requests, id) {
            self.requests[place].result = Some(answer);
        }
    }

    /// Takes a worker's request, which it has, off.
    pub fn remove(&mut self, worker: u8)
        requires { has_request self.old worker ≡ true }
        ensures { self.new ≡ without worker self.old }
    {
        let place = self.place_of(worker);
        self.requests.remove(place);
    }
}

impl Request {
    /// It names this id, and has no result.
    fn is_waiting(&self, id: u64) -> bool
        ensures { result ≡ is_waiting id self.now }
    {
        self.asked.id == id && self.result.is_none()
    }
}

/// Whether one of these requests is a worker's.
fn has_request(requests: &[Request], worker: u8) -> bool
    ensures { result ≡ has_request requests.now worker }
{
    requests.iter().any(|request| request.worker == worker)
}

/// A worker's first request.
fn first_of(requests: &[Request], worker: u8) -> Option<&Request>
    ensures { option_copied result ≡ find (is_of worker) requests.now }
{
    requests.iter().find(|request| request.worker == worker)
}

/// The place of a worker's first request.
fn position(requests: &[Request], worker: u8) -> Option<usize>
    ensures { result ≡ position (is_of worker) requests.now }
{
    requests.iter().position(|request| request.worker == worker)
}

/// How many requests for this id have no result.
fn count_waiting(requests: &[Request], id: u64) -> usize
    ensures { result ≡ length (waiting id requests.now) }
{
    requests
        .iter()
        .filter(|request| request.is_waiting(id))
        .count()
}

/// The first request for this id that has no result.
fn first_waiting(requests: &[Request], id: u64) -> Option<&Request>
    ensures { option_copied result ≡ find (is_waiting id) requests.now }
{
    requests.iter().find(|request| request.is_waiting(id))
}

/// The place of the first request for this id that has no result.
fn waiting_place(requests: &[Request], id: u64) -> Option<usize>
    ensures { result ≡ position (is_waiting id) requests.now }
{
    requests.iter().position(|request| request.is_waiting(id))
}
