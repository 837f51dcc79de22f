//! The queue of listed calls.

ghost use Rattle.std.specs.Prelude.{◌≡◌, ◌++◌, ℕ, ◌+◌, ◌<◌, ◌≤◌, ◌^◌, List, [], Option, Some, None, Err, IfOk, OnOk, IsOk, option_map};
ghost use Rattle.hist_model.specs.Look.{Name};

use crate::order::Order;
use hist_model::notification::{Fetched, Reply, State};
use hist_model::request::TaskRef;
use key_bytes::push_number;
use std::alloc::Global;
use sys_abi::memory::NoMemory;
use thiserror::Error;

/// Why no notification was received (SECCOMP_IOCTL_NOTIF_RECV).
#[derive(Clone, Copy, PartialEq, Eq, Debug, Error)]
pub enum FetchError {
    /// Nothing was requested: the receive has to wait.
    #[error("no notification")]
    Empty,
    /// The call that was requested isn't listed any more (ENOENT).
    #[error("the call is gone")]
    Gone,
}

/// The listed calls of a listener, and the count of its requests.
#[derive(Drop)]
pub struct Queue {
    order: Order,
    /// The id of the first call.
    first: u64,
    /// The listed calls with lower numbers than this were fetched, since each receive fetches the oldest.
    fetched: u64,
    /// How many receives were answered.
    received: u64,
    ghost fits: { first < 2 ^ 64 },
    ghost few: { order.entered < 2 ^ 64 },
    ghost seen: { fetched ≤ order.entered },
}

impl Queue {
    ghost use Rattle.listener.specs.Keys.{queue_part};
    ghost use Rattle.listener.specs.declared.requests.Request.{Request as Ask};
    ghost use Rattle.listener.specs.State.{counted, far_in, next_id, oldest, row_named, task_in, with_entered, with_fetched, with_receive, with_reply, without_call, without_calls, lists_none};
    ghost use Rattle.listener.specs.Table.{HasRoom, IsReceived, view, reply_in};
    ghost use Rattle.listener.specs.declared.queue.FetchError.TheVariants.{Empty, Gone};

    /// A queue without calls, whose first one will have this id.
    pub fn new(alloc: Global, first: u64) -> Queue
        ensures { (names : ℕ → Name) (asks : List Ask) → view result names asks ≡ record { first = first; entered = 0; received = 0; calls = []; asks = asks } }
    {
        Queue {
            order: Order::new(alloc),
            first,
            fetched: 0,
            received: 0,
        }
    }

    /// Adds the part of this queue in a key.
    pub fn write_key(&self, key: &mut Vec<u8>) -> Result<(), NoMemory>
        ensures { OnOk result (key.new.items ≡ key.old.items ++ queue_part self.now) }
    {
        push_number(key, self.first)?;
        push_number(key, self.fetched)?;
        push_number(key, self.received)?;
        self.order.write_key(key)
    }

    /// Makes room for one `enter`, which then takes no memory. There is none for the 2^64-th call.
    pub fn ready(&mut self) -> Result<(), NoMemory>
        ensures room { OnOk result (HasRoom self.new) }
        ensures had_room { HasRoom self.old → IsOk result }
        ensures same { (names : ℕ → Name) (asks : List Ask) → view self.new names asks ≡ view self.old names asks }
    {
        self.order.ready()
    }

    /// Lists a call of this task, for which there is room, and gives its id.
    pub fn enter(&mut self, owner: TaskRef) -> u64
        requires { HasRoom self.old }
        ensures id { (names : ℕ → Name) (asks : List Ask) → result ≡ next_id (view self.old names asks) }
        ensures step { (names : ℕ → Name) (asks : List Ask) → view self.new names asks ≡ with_entered (names owner.ordinal) (view self.old names asks) }
    {
        let number = self.order.push(owner);
        self.first.wrapping_add(number)
    }

    /// Receives the notification of the oldest listed call that wasn't fetched. `Empty` comes exactly where the count of
    /// requests is 0, and leaves all as it was; `Gone` where it isn't and there is no such call, which lowers the count.
    pub fn fetch(&mut self) -> Result<Fetched, FetchError>
        ensures next { IfOk result (λ f. (names : ℕ → Name) (asks : List Ask) → IsReceived (view self.old names asks) f names) }
        ensures step { IfOk result (λ f. (names : ℕ → Name) (asks : List Ask) → view self.new names asks ≡ with_fetched f.id (view self.old names asks)) }
        ensures gone { result ≡ Err Gone → (names : ℕ → Name) (asks : List Ask) → (self.old.received < self.old.order.entered) × (oldest (view self.old names asks) ≡ None) × (view self.new names asks ≡ with_receive (view self.old names asks)) }
        ensures empty { result ≡ Err Empty → (self.old.order.entered ≤ self.old.received) × (self.new ≡ self.old) }
        ensures room { HasRoom self.old → HasRoom self.new }
    {
        if self.received >= self.order.entered() {
            return Err(FetchError::Empty);
        }
        self.received += 1;
        let Some(entry) = self.order.first_from(self.fetched) else {
            return Err(FetchError::Gone);
        };
        self.fetched = entry.number + 1;
        let id = self.first.wrapping_add(entry.number);
        Ok(Fetched {
            id,
            owner: entry.owner,
        })
    }

    /// Whether no call is listed.
    pub fn is_empty(&self) -> bool
        ensures { (names : ℕ → Name) (asks : List Ask) → result ≡ lists_none (view self.now names asks) }
    {
        self.order.is_empty()
    }

    /// The count of requests: how many more calls were entered than receives were answered. A receive is `Empty` exactly where
    /// it is 0.
    pub fn count(&self) -> u64
        ensures { (names : ℕ → Name) (asks : List Ask) → result ≡ counted (view self.now names asks) }
    {
        self.order.entered().saturating_sub(self.received)
    }

    /// The ordinal of the task in the listed call with this id. None exactly where no listed call has it.
    pub fn caller(&self, id: u64) -> Option<u32>
        ensures { (names : ℕ → Name) (asks : List Ask) → option_map names result ≡ task_in (row_named id (view self.now names asks)) }
    {
        match self.order.find(id.wrapping_sub(self.first)) {
            Some(call) => Some(call.owner.ordinal),
            None => None,
        }
    }

    /// How far the listed call with this id is. None exactly where no listed call has it.
    pub fn state_of(&self, id: u64) -> Option<State>
        ensures { (names : ℕ → Name) (asks : List Ask) → result ≡ far_in (row_named id (view self.now names asks)) }
    {
        let number = id.wrapping_sub(self.first);
        let Some(call) = self.order.find(number) else {
            return None;
        };
        if number >= self.fetched {
            return Some(State::Unfetched);
        }
        match call.reply {
            Some(_) => Some(State::Answered),
            None => Some(State::Fetched),
        }
    }

    /// How the listed call with this id will return, where it was answered.
    pub fn reply_of(&self, id: u64) -> Option<Reply>
        ensures { (names : ℕ → Name) (asks : List Ask) → result ≡ reply_in (row_named id (view self.now names asks)) }
    {
        match self.order.find(id.wrapping_sub(self.first)) {
            Some(call) => call.reply,
            None => None,
        }
    }

    /// Writes how the listed call with this id will return, if there is one.
    pub fn set_reply(&mut self, id: u64, reply: Option<Reply>)
        ensures { (names : ℕ → Name) (asks : List Ask) → view self.new names asks ≡ with_reply id reply (view self.old names asks) }
    {
        self.order.set_reply(id.wrapping_sub(self.first), reply);
    }

    /// Takes the listed call with this id off the list, if there is one.
    pub fn finish(&mut self, id: u64)
        ensures { (names : ℕ → Name) (asks : List Ask) → view self.new names asks ≡ without_call id (view self.old names asks) }
    {
        self.order.take(id.wrapping_sub(self.first));
    }

    /// Takes all calls off the list, since the listener closes.
    pub fn close(&mut self)
        ensures { (names : ℕ → Name) (asks : List Ask) → view self.new names asks ≡ without_calls (view self.old names asks) }
    {
        self.order.clear();
    }
}
