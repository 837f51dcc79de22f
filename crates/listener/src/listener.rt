//! The listener of a kernel.

ghost use Rattle.std.specs.Prelude.{◌≡◌, ◌++◌, ◌≤◌, ◌<◌, ◌+◌, ◌%◌, ◌^◌, ◌∷◌, [], ℕ, List, Option, Some, None, Ok, Err, IfOk, IfSome, IfNone, OnOk, OnErr, IsOk, is_some, true, false};
ghost use Rattle.hist_model.specs.Calls.{calls, count, fetched, listed, named, queue};
ghost use Rattle.hist_model.specs.Kinds.{closes};
ghost use Rattle.hist_model.specs.Look.{Name};
ghost use Rattle.hist_model.specs.Steps.{check_answer, install_at, oldest_unfetched, put_answer, request_listed, request_of, send_answer, take_step};
ghost use Rattle.hist_model.specs.Systems.{System};
ghost use Rattle.hist_model.specs.declared.event.Actor.TheVariants.{Worker};
ghost use Rattle.hist_model.specs.declared.event.Event.{Event};
ghost use Rattle.hist_model.specs.declared.event.What.TheVariants.{AddfdPut, Recv, Send};
ghost use Rattle.hist_model.specs.declared.notification.Reply.TheVariants.{Installing};
ghost use Rattle.sys_abi.specs.Errnos.{enoent};
ghost use Rattle.listener.specs.Keys.{listener_part};
ghost use Rattle.listener.specs.Listeners.{validity, send_admission, put_admission, taken, is_over, back_of, was_fetched, with_sent};
ghost use Rattle.listener.specs.Requests.{has_request};
ghost use Rattle.listener.specs.Stands.{StandsFor, IsCaller, IsEntry, IsInstall, IsLeaving, IsListedAs, IsNext, IsReceipt, IsSettledBy, oldest_in, take_of};
ghost use Rattle.listener.specs.State as state;
ghost use Rattle.listener.specs.State.{result_reply};
ghost use Rattle.listener.specs.Table as table;
ghost use Rattle.listener.specs.Table.{HasRoom};
ghost use Rattle.listener.specs.declared.listener.TakeError.TheVariants.{Pending};
ghost use Rattle.listener.specs.declared.queue.FetchError.TheVariants.{Empty, Gone};
ghost use Rattle.listener.specs.declared.requests.Request.{Request};

use crate::queue::{FetchError, Queue};
use crate::requests::Requests;
use hist_model::event::Back;
use hist_model::notification::{Fetched, Reply, State};
use hist_model::request::TaskRef;
use std::alloc::Global;
use sys_abi::errno::Errno;
use sys_abi::memory::NoMemory;
use sys_abi::wire::Addfd;
use thiserror::Error;

/// Why a worker didn't get a descriptor's number.
#[derive(Clone, Copy, PartialEq, Eq, Debug, Error)]
pub enum TakeError {
    /// The call's task has not installed the descriptor yet.
    #[error("not installed yet")]
    Pending,
    /// The installation failed, or it never comes, since the call is gone.
    #[error("not installed")]
    Fault(Errno),
}

/// The listed calls of a listener, and the requests for descriptors of workers 0 to 16.
pub struct Listener {
    queue: Queue,
    requests: Requests,
}

// (written out, so that what letting one go comes to is proved here once, and not in each crate that owns one)
impl Drop for Listener {
    fn drop(self) {
        let Listener {
            queue: _queue,
            requests: _requests,
        } = self;
    }
}

/// The reply of a call that is answered so.
fn reply_of(back: Back) -> Reply
    ensures { result ≡ state.reply_of back }
{
    match back {
        Back::Value(value) => Reply::Value(value),
        Back::Fail(errno) => Reply::Fail(errno),
        Back::Continue => Reply::Continue,
    }
}

/// How a call with this reply returns; none where its descriptor isn't installed yet.
fn back_of(reply: Reply) -> Option<Back>
    ensures { result ≡ back_of (Some reply) }
{
    match reply {
        Reply::Value(value) => Some(Back::Value(value)),
        Reply::Fail(errno) => Some(Back::Fail(errno)),
        Reply::Continue => Some(Back::Continue),
        Reply::Installing => None,
    }
}

/// The reply of a call whose descriptor was installed with this answer.
fn installed_reply(answer: &Result<u32, Errno>) -> Option<Reply>
    ensures { result ≡ state.result_reply answer.now }
{
    match answer {
        Ok(number) => Some(Reply::Value(i64::from(*number))),
        Err(_) => None,
    }
}

/// The notification of a call of this state was received.
fn was_fetched(state: Option<State>) -> bool
    ensures { result ≡ was_fetched state }
{
    matches!(state, Some(State::Fetched | State::Answered))
}

/// Whether an id is valid that names a listed call of this state, or none.
fn check_valid(state: Option<State>) -> Result<(), Errno>
    ensures { result ≡ validity state }
{
    match state {
        Some(State::Fetched) => Ok(()),
        _ => Err(Errno::ENOENT),
    }
}

/// Whether an answer is taken of the listed call that its id names, if it names one.
fn admit_send(state: Option<State>) -> Result<(), Errno>
    ensures { result ≡ send_admission state }
{
    match state {
        None => Err(Errno::ENOENT),
        Some(State::Fetched) => Ok(()),
        Some(State::Unfetched | State::Answered) => Err(Errno::EINPROGRESS),
    }
}

/// Whether a request for the listed call that its id names, if it names one, is taken.
fn admit_put(a: &Addfd, state: Option<State>, queued: u32) -> Result<(), Errno>
    ensures { result ≡ put_admission a.now state queued }
{
    match state {
        None => Err(Errno::ENOENT),
        Some(State::Unfetched | State::Answered) => Err(Errno::EINPROGRESS),
        Some(State::Fetched) => {
            if a.has_send_flag() && queued != 0 {
                Err(Errno::EBUSY)
            } else {
                Ok(())
            }
        }
    }
}

/// What a worker is told whose request has this result, and whose call is listed or not.
fn told(found: Option<Result<u32, Errno>>, listed: bool) -> Result<u32, TakeError>
    ensures { result ≡ taken found listed }
{
    match found {
        Some(Ok(number)) => Ok(number),
        Some(Err(errno)) => Err(TakeError::Fault(errno)),
        None if listed => Err(TakeError::Pending),
        None => Err(TakeError::Fault(Errno::ENOENT)),
    }
}

/// A worker that is told this has no request any more.
fn is_over(answer: &Result<u32, TakeError>) -> bool
    ensures { result ≡ is_over answer.now }
{
    !matches!(answer, Err(TakeError::Pending))
}

/// Notes a request, which was taken: one with SECCOMP_ADDFD_FLAG_SEND answers its call.
fn note_put(queue: &mut Queue, asked: &Addfd)
    ensures { (names : ℕ → Name) (asks : List Request) → table.view queue.new names asks ≡ with_sent asked.now (Some Installing) asked.now.id (table.view queue.old names asks) }
{
    if asked.has_send_flag() {
        queue.set_reply(asked.id, Some(Reply::Installing));
    }
}

/// Notes what the installation of a request for the call with this id answered.
fn note_installation(queue: &mut Queue, id: u64, asked: &Addfd, answer: &Result<u32, Errno>)
    ensures { (names : ℕ → Name) (asks : List Request) → table.view queue.new names asks ≡ with_sent asked.now (result_reply answer.now) id (table.view queue.old names asks) }
{
    if asked.has_send_flag() {
        queue.set_reply(id, installed_reply(answer));
    }
}

impl Listener {
    /// A listener without calls, whose first notification will have this id.
    pub fn new(alloc: Global, first: u64) -> Result<Listener, NoMemory>
        ensures { IfOk result (λ l. StandsFor first [] l) }
    {
        Ok(Listener {
            queue: Queue::new(alloc, first),
            requests: Requests::new(alloc)?,
        })
    }

    /// Adds the key of this listener: only listeners that are the same state have equal ones. Fails for want of memory alone; then a
    /// front of the key was added.
    pub fn write_key(&self, key: &mut Vec<u8>) -> Result<(), NoMemory>
        ensures { OnOk result (key.new.items ≡ key.old.items ++ listener_part self.now) }
    {
        self.queue.write_key(key)?;
        self.requests.write_key(key)
    }

    /// Whether an id is valid (SECCOMP_IOCTL_NOTIF_ID_VALID): ENOENT exactly where it names no call that was received and
    /// waits for its answer.
    pub fn check(&self, id: u64) -> Result<(), Errno>
        ensures { (first : ℕ) (K : List Event) → StandsFor first K self.now → result ≡ check_answer K (named K id) }
    {
        check_valid(self.queue.state_of(id))
    }

    /// Receives the notification of the oldest call that wasn't received (SECCOMP_IOCTL_NOTIF_RECV). `Empty` comes exactly
    /// where the count of requests is 0, and leaves all as it was; `Gone` where it isn't and there is no such call, which
    /// lowers the count.
    pub fn receive(&mut self) -> Result<Fetched, FetchError>
        ensures next { IfOk result (λ f. (first : ℕ) (K : List Event) → StandsFor first K self.old → (0 < count K) × IsNext K f) }
        ensures step { IfOk result (λ f. (first : ℕ) (K : List Event) (e : Event) → StandsFor first K self.old → IsReceipt e f.id → StandsFor first (e ∷ K) self.new) }
        ensures gone { result ≡ Err Gone → (first : ℕ) (K : List Event) → StandsFor first K self.old → (0 < count K) × (oldest_unfetched K ≡ None) }
        ensures gone_step { result ≡ Err Gone → (first : ℕ) (K : List Event) (e : Event) → StandsFor first K self.old → e.what ≡ Recv (Err enoent) → StandsFor first (e ∷ K) self.new }
        ensures empty { result ≡ Err Empty → (first : ℕ) (K : List Event) → StandsFor first K self.old → count K ≡ 0 }
        ensures same { result ≡ Err Empty → self.new ≡ self.old }
        ensures room { HasRoom self.old.queue → HasRoom self.new.queue }
    {
        self.queue.fetch()
    }

    /// The count of requests: how many more calls were listed than receives were answered. While it isn't 0, no receive is
    /// `Empty`.
    pub fn count(&self) -> u64
        ensures { (first : ℕ) (K : List Event) → StandsFor first K self.now → result ≡ count K }
    {
        self.queue.count()
    }

    /// The ordinal of the task in the listed call with this id. None exactly where no listed call has it.
    pub fn caller(&self, id: u64) -> Option<u32>
        ensures some { IfSome result (λ o. (first : ℕ) (K : List Event) → StandsFor first K self.now → IsCaller K id o) }
        ensures none { IfNone result ((first : ℕ) (K : List Event) → StandsFor first K self.now → named K id ≡ None) }
    {
        self.queue.caller(id)
    }

    /// Answers the call with this id (SECCOMP_IOCTL_NOTIF_SEND): ENOENT exactly where no listed call has it, EINPROGRESS where
    /// its notification wasn't received, or it was answered. An answer that isn't taken leaves all as it was.
    pub fn send(&mut self, id: u64, back: Back) -> Result<(), Errno>
        ensures answer { (first : ℕ) (K : List Event) → StandsFor first K self.old → result ≡ send_answer K (named K id) }
        ensures step { (first : ℕ) (K : List Event) (e : Event) → StandsFor first K self.old → e.what ≡ Send id back result → StandsFor first (e ∷ K) self.new }
        ensures refused { OnErr result (self.new ≡ self.old) }
    {
        match admit_send(self.queue.state_of(id)) {
            Ok(()) => {
                self.queue.set_reply(id, Some(reply_of(back)));
                Ok(())
            }
            Err(error) => Err(error),
        }
    }

    /// Whether a worker has a request for a descriptor.
    pub fn has_request(&self, worker: u8) -> bool
        ensures has { result ≡ has_request self.now.requests worker }
        ensures stands { (first : ℕ) (K : List Event) → StandsFor first K self.now → result ≡ is_some (request_of K worker) }
    {
        self.requests.has_request(worker)
    }

    /// Asks for a descriptor in the caller of the call that the request's id names (SECCOMP_IOCTL_NOTIF_ADDFD): ENOENT exactly
    /// where there is none, EINPROGRESS where its notification wasn't received, or it was answered, and EBUSY for a request
    /// with SECCOMP_ADDFD_FLAG_SEND where another of the call's isn't installed yet. The worker has no request. A request that
    /// isn't taken leaves all as it was.
    pub fn put(&mut self, worker: u8, asked: Addfd) -> Result<(), Errno>
        requires worker { worker ≤ 16 }
        requires free { has_request self.old.requests worker ≡ false }
        ensures answer { (S : System) (first : ℕ) (K : List Event) → StandsFor first K self.old → result ≡ put_answer S K asked (named K asked.id) }
        ensures step { (first : ℕ) (K : List Event) (e : Event) → StandsFor first K self.old → e.who ≡ Worker worker → e.what ≡ AddfdPut asked result → StandsFor first (e ∷ K) self.new }
        ensures refused { OnErr result (self.new ≡ self.old) }
    {
        let state = self.queue.state_of(asked.id);
        match admit_put(&asked, state, self.requests.queued(asked.id)) {
            Ok(()) => {
                note_put(&mut self.queue, &asked);
                self.requests.put(worker, asked);
                Ok(())
            }
            Err(error) => Err(error),
        }
    }

    /// Takes what came of a worker's request, which it has (SECCOMP_IOCTL_NOTIF_ADDFD): the number that was installed, or
    /// `Fault` with the errno with which the installation failed. Without an installation `Pending` exactly where the
    /// request's call is listed, which leaves all as it was; else `Fault(ENOENT)`.
    pub fn take(&mut self, worker: u8) -> Result<u32, TakeError>
        requires { has_request self.old.requests worker ≡ true }
        ensures answer { (first : ℕ) (K : List Event) → StandsFor first K self.old → take_of result ≡ take_step (install_at K (request_of K worker)) (request_listed K (request_of K worker)) }
        ensures step { (first : ℕ) (K : List Event) (e : Event) → StandsFor first K self.old → e.who ≡ Worker worker → e.what ≡ take_of result → StandsFor first (e ∷ K) self.new }
        ensures pending { result ≡ Err Pending → self.new ≡ self.old }
    {
        let Some(request) = self.requests.of(worker) else {
            unreachable!()
        };
        let listed = self.queue.state_of(request.asked.id).is_some();
        let answer = told(request.result, listed);
        if is_over(&answer) {
            self.requests.remove(worker);
        }
        answer
    }

    /// Makes room for one `enter`. There is none for the 2^64-th call.
    pub fn ready(&mut self) -> Result<(), NoMemory>
        ensures room { OnOk result (HasRoom self.new.queue) }
        ensures had_room { HasRoom self.old.queue → IsOk result }
        ensures stands { (first : ℕ) (K : List Event) → StandsFor first K self.old → StandsFor first K self.new }
    {
        self.queue.ready()
    }

    /// Lists a call of this task, for which there is room, and gives its id: the ids count from the first one on.
    pub fn enter(&mut self, owner: TaskRef) -> u64
        requires { HasRoom self.old.queue }
        ensures id { (first : ℕ) (K : List Event) → StandsFor first K self.old → result ≡ (first + calls K) % 2 ^ 64 }
        ensures step { (first : ℕ) (K : List Event) (e : Event) → StandsFor first K self.old → IsEntry K e owner result → StandsFor first (e ∷ K) self.new }
    {
        self.queue.enter(owner)
    }

    /// How the listed call with this id returns, where it was settled: answered, and with its descriptor installed where it
    /// was answered by a request for one.
    pub fn settled_back(&self, id: u64) -> Option<Back>
        ensures { (first : ℕ) (K : List Event) (c : ℕ) → StandsFor first K self.now → IsListedAs K c id → IsSettledBy K c result }
    {
        match self.queue.reply_of(id) {
            Some(reply) => back_of(reply),
            None => None,
        }
    }

    /// Whether the notification of the listed call with this id was received.
    pub fn was_received(&self, id: u64) -> bool
        ensures { (first : ℕ) (K : List Event) (c : ℕ) → StandsFor first K self.now → IsListedAs K c id → result ≡ fetched K c }
    {
        was_fetched(self.queue.state_of(id))
    }

    /// What the oldest request for the listed call with this id asks for that isn't installed: None exactly where there is
    /// none.
    pub fn next_request(&self, id: u64) -> Option<Addfd>
        ensures { (first : ℕ) (K : List Event) (c : ℕ) → StandsFor first K self.now → IsListedAs K c id → result ≡ oldest_in K (queue K c) }
    {
        self.requests.oldest(id)
    }

    /// Notes what the installation of the oldest request of the listed call with this id, which asks for this, answered. Where
    /// the request has SECCOMP_ADDFD_FLAG_SEND the number is what the call returns, and after a failed one the call waits for
    /// an answer again.
    pub fn installed(&mut self, id: u64, asked: &Addfd, answer: Result<u32, Errno>)
        ensures { (first : ℕ) (K : List Event) (e : Event) (c : ℕ) → StandsFor first K self.old → IsListedAs K c id → IsInstall K e c asked.now answer → StandsFor first (e ∷ K) self.new }
    {
        note_installation(&mut self.queue, id, asked, &answer);
        self.requests.done(id, answer);
    }

    /// Takes the listed call with this id off the list, since its task resumes or has a delivery in it.
    pub fn leave(&mut self, id: u64)
        ensures { (first : ℕ) (K : List Event) (e : Event) → StandsFor first K self.old → IsLeaving K e id → StandsFor first (e ∷ K) self.new }
    {
        self.queue.finish(id);
    }

    /// Takes all calls off the list, since the listener closes.
    pub fn close(&mut self)
        ensures { (first : ℕ) (K : List Event) (e : Event) → StandsFor first K self.old → closes e.what ≡ true → StandsFor first (e ∷ K) self.new }
    {
        self.queue.close();
    }

    /// Whether no call is listed.
    pub fn is_idle(&self) -> bool
        ensures none { result ≡ true → (first : ℕ) (K : List Event) → StandsFor first K self.now → (c : ℕ) → listed K c ≡ false }
        ensures some { result ≡ false → (first : ℕ) (K : List Event) → StandsFor first K self.now → (c : ℕ) × (listed K c ≡ true) }
    {
        self.queue.is_empty()
    }
}
