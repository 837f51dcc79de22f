//! The calls that were listed, by their numbers.

ghost use Rattle.std.specs.Prelude.{◌≡◌, [], ◌∷◌, ◌++◌, ◌&&◌, ◌||◌, length, IfOk};
ghost use Rattle.std.specs.List.{list_any};
ghost use Rattle.hist_model.specs.Kinds.{has_send_flag};
ghost use Rattle.judge_pass.specs.Tables.{behind_first, first_effect, first_sends, is_unanswered, number_named, waits};

use broker_judge::called::Called;
use std::alloc::Global;
use sys_abi::memory::NoMemory;
use sys_abi::wire::Addfd;

/// A call that was listed.
#[derive(Debug, Drop)]
pub(crate) struct Call {
    /// The place of its entry.
    pub(crate) place: usize,
    /// The ordinal of its task.
    pub(crate) caller: u32,
    pub(crate) called: Called,
    pub(crate) is_listed: bool,
    /// It was answered by a send, or by an installation.
    pub(crate) is_settled: bool,
    /// The worker that has received it.
    pub(crate) fetcher: Option<u8>,
    /// Its requests for descriptors without an installation, the oldest first, by the ordinals of these effects; and whether each
    /// answers the call.
    pub(crate) queue: Vec<Queued>,
}

/// A request for a descriptor that isn't installed yet.
#[derive(Clone, Copy, PartialEq, Eq, Debug)]
pub(crate) struct Queued {
    pub(crate) effect: usize,
    pub(crate) has_send: bool,
}

/// Whether a request for a descriptor answers its call (SECCOMP_ADDFD_FLAG_SEND).
pub(crate) fn has_send(asked: &Addfd) -> bool
    ensures { result ≡ has_send_flag asked.now }
{
    asked.has_send_flag()
}

/// Whether one of the requests answers its call.
fn has_answer(queue: &[Queued]) -> bool
    ensures { result ≡ list_any (λ q. q.has_send) queue.now }
{
    queue.iter().any(|queued| queued.has_send)
}

impl Call {
    /// Whether it was received and waits for an answer.
    pub(crate) fn is_waiting(&self) -> bool
        ensures { result ≡ waits self.now }
    {
        self.fetcher.is_some() && self.is_unanswered()
    }

    /// Whether it waits for an answer, received or not.
    pub(crate) fn is_unanswered(&self) -> bool
        ensures { result ≡ is_unanswered self.now }
    {
        self.is_listed && !self.is_settled && !has_answer(self.queue.as_slice())
    }

    /// Its oldest request without an installation has one now: the effect that it is, if there is one. One with SEND that gave a number
    /// answers the call.
    pub(crate) fn install(&mut self, gave: bool) -> Option<usize>
        ensures effect { result ≡ first_effect self.old.queue.items }
        ensures queue { self.new.queue.items ≡ behind_first self.old.queue.items }
        ensures settled { self.new.is_settled ≡ ((gave && first_sends self.old.queue.items) || self.old.is_settled) }
        ensures rest { self.new ≡ record self.old { queue = self.new.queue; is_settled = self.new.is_settled } }
    {
        if self.queue.is_empty() {
            return None;
        }
        let queued = self.queue.remove(0);
        if gave && queued.has_send {
            self.is_settled = true;
        }
        Some(queued.effect)
    }
}

/// The calls that were listed, in the order of their entries. The ids go on from the first one.
#[derive(Drop)]
pub(crate) struct Calls {
    first: u64,
    pub(crate) rows: Vec<Call>,
}

impl Calls {
    pub(crate) fn new(alloc: Global, first: u64) -> Calls
        ensures first { result.first ≡ first }
        ensures rows { result.rows.items ≡ [] }
    {
        Calls {
            first,
            rows: Vec::new(alloc),
        }
    }

    /// The number of the listed call with this id.
    pub(crate) fn named(&self, id: u64) -> Option<usize>
        ensures { result ≡ number_named self.now.first self.now.rows.items id }
    {
        let number = id.wrapping_sub(self.first);
        if number >= self.rows.len() as u64 {
            return None;
        }
        let number = number as usize;
        if self.rows[number].is_listed {
            Some(number)
        } else {
            None
        }
    }

    /// A call was entered, and is listed.
    pub(crate) fn enter(&mut self, call: Call) -> Result<usize, NoMemory>
        ensures number { IfOk result (λ n. n ≡ length self.old.rows.items) }
        ensures rows { IfOk result (λ n. self.new.rows.items ≡ self.old.rows.items ++ call ∷ []) }
        ensures first { self.new.first ≡ self.old.first }
    {
        let number = self.rows.len();
        self.rows.push(call)?;
        Ok(number)
    }
}
