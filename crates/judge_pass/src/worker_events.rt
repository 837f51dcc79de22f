//! The events of workers, as they are taken, but for effects and answers.

ghost use Rattle.sys_abi.specs.Errnos.{ebadf};
ghost use Rattle.std.specs.Prelude.{◌≡◌, ◌&&◌, ◌==◌, ◌<◌, ◌≤◌, ◌+◌, ◌^◌, ◌∷◌, ℕ, List, true, false, Some, None, Ok, Err, OnOk, IfOk, IfSome, All, is_some, length, get_or, take};
ghost use Rattle.broker_judge.specs.Reads.{worth_of};
ghost use Rattle.broker_verdict.specs.Seats.{base_now as base_now_of, dirfd_of_call, has_no_base as has_no_base_of, is_base, is_dirfd, is_of_call as is_of_call_by, confirmed, is_own_id as is_own_id_of, of_call, worth_now as worth_of_now};
ghost use Rattle.broker_verdict.specs.Trusted.{leaves_unanswered};
ghost use Rattle.broker_verdict.specs.declared.clause.Clause.TheVariants.{Unanswered};
ghost use Rattle.hist_model.specs.Look.{ev};
ghost use Rattle.hist_model.specs.Requests.{base_dirfd};
ghost use Rattle.hist_model.specs.Steps.{opened, session_call};
ghost use Rattle.hist_model.specs.Tasks.{holder as holder_of};
ghost use Rattle.hist_model.specs.Trees.{ordinal_of};
ghost use Rattle.hist_model.specs.declared.event.Actor.TheVariants.{Worker};
ghost use Rattle.hist_model.specs.declared.event.Event.{Event};
ghost use Rattle.hist_model.specs.declared.event.What.TheVariants.{Check, LetGo, OpenBase, OpenMem, Read, Recv};
ghost use Rattle.hist_model.specs.declared.policy.Policy.{Policy as PolicyValue};
ghost use Rattle.hist_model.specs.declared.script.Script.{Script as ScriptValue};
ghost use Rattle.judge_pass.specs.declared.seats.Seat.{Seat as SeatValue};
ghost use Rattle.sys_abi.specs.declared.wire.Notif.{Notif as NotifValue};
ghost use Rattle.judge_pass.specs.Stands.{IsCall, IsHistory, place_of_call, place_of_group, Stands};
ghost use Rattle.judge_pass.specs.Takes.{acts_or_answers, HasFollowed, HasHolder, HolderIs, moves_alone, Takes};
ghost use Rattle.judge_pass.specs.Within.{calls_kept, IsCallWithin, IsWithin, tasks_kept};

use crate::calls::Call;
use crate::judge::Judge;
use crate::seats::Seat;
use broker_judge::reads::{SeatRead, Worth};
use emu_request::base_dirfd;
use hist_model::event::What;
use hist_model::request::NodeRef;
use hist_model::script::Script;
use hist_model::text::Text;
use std::alloc::Global;
use sys_abi::errno::Errno;
use sys_abi::memory::NoMemory;
use sys_abi::wire::Notif;

impl Judge {
    /// Takes a step of a worker that is neither an effect nor an answer: the call that it leaves to nobody. `holder` is the task that holds
    /// the PID that it names, if it opens something.
    pub(crate) fn take_of_worker(
        &mut self,
        place: usize,
        script: &Script,
        holder: Option<u32>,
        number: u8,
        what: &What,
    ) -> Result<Option<usize>, NoMemory>
        requires within { IsWithin self.old }
        requires worker { number < 17 }
        requires few { self.old.counts.calls + 1 < 2 ^ 64 }
        requires holder { IfSome holder (λ o. o < tasks_kept self.old) }
        requires followed { HasFollowed number self.old }
        requires kind { acts_or_answers what.now ≡ false }
        ensures stands { IfOk result (λ left. Takes self.old self.new (λ S K e. (S ≡ script.now) × (e ≡ ev (Worker number) what.now) × (length K ≡ place) × HolderIs what.now K holder)) }
        ensures left { IfOk result (λ left. (P : PolicyValue) (S : ScriptValue) (K : List Event) (e : Event) → Stands P S K self.old → IsHistory S (e ∷ K)
            → e ≡ ev (Worker number) what.now → length K ≡ place → is_some left ≡ leaves_unanswered Unanswered K e) }
    {
        match what {
            What::Recv { answer } => Ok(self.answer_receive(place, number, answer)),
            What::LetGo => Ok(self.let_go(place, usize::from(number))),
            _ => {
                self.move_alone(place, script, holder, usize::from(number), what)?;
                Ok(None)
            }
        }
    }

    /// A worker is answered a receive: the call that is left to nobody.
    fn answer_receive(
        &mut self,
        place: usize,
        number: u8,
        answer: &Result<Notif, Errno>,
    ) -> Option<usize>
        requires within { IsWithin self.old }
        requires worker { number < 17 }
        requires few { self.old.counts.calls + 1 < 2 ^ 64 }
        ensures stands { Takes self.old self.new (λ S K e. (e ≡ ev (Worker number) (Recv answer.now)) × (length K ≡ place)) }
        ensures left { (P : PolicyValue) (S : ScriptValue) (K : List Event) (e : Event) → Stands P S K self.old → IsHistory S (e ∷ K)
            → e ≡ ev (Worker number) (Recv answer.now) → length K ≡ place → is_some result ≡ leaves_unanswered Unanswered K e }
    {
        match answer {
            Ok(notif) => self.receive(place, number, notif.id),
            Err(_errno) => None,
        }
    }

    /// A step of a worker changes its seat alone, if anything.
    fn move_alone(
        &mut self,
        place: usize,
        script: &Script,
        holder: Option<u32>,
        worker: usize,
        what: &What,
    ) -> Result<(), NoMemory>
        requires within { IsWithin self.old }
        requires worker { worker < 17 }
        requires holder { IfSome holder (λ o. o < tasks_kept self.old) }
        requires followed { HasFollowed worker self.old }
        requires kind { moves_alone what.now ≡ true }
        ensures { OnOk result (Takes self.old self.new (λ S K e. (S ≡ script.now) × (e ≡ ev (Worker worker) what.now) × (length K ≡ place) × HolderIs what.now K holder)) }
    {
        match what {
            What::OpenMem { answer, .. } => {
                self.answer_memory(worker, holder, answer);
                Ok(())
            }
            What::OpenBase { dirfd, answer, .. } => {
                self.open_base(script, worker, holder, *dirfd, answer);
                Ok(())
            }
            What::Check { id, answer } => {
                self.answer_check(worker, *id, answer);
                Ok(())
            }
            What::Read { addr, len, answer } => self.read(place, worker, *addr, *len, answer),
            _ => Ok(()),
        }
    }

    /// A worker is answered whether it has opened the memory of the task that holds a PID.
    fn answer_memory(&mut self, worker: usize, holder: Option<u32>, answer: &Result<(), Errno>)
        requires within { IsWithin self.old }
        requires worker { worker < 17 }
        requires holder { IfSome holder (λ o. o < tasks_kept self.old) }
        ensures { (pid : ℕ) → Takes self.old self.new (λ S K e. (e ≡ ev (Worker worker) (OpenMem pid answer.now)) × HasHolder K pid holder) }
    {
        match answer {
            Ok(()) => self.open_memory(worker, holder),
            Err(_errno) => {}
        }
    }

    /// A worker is answered whether an id is valid.
    fn answer_check(&mut self, worker: usize, id: u64, answer: &Result<(), Errno>)
        requires within { IsWithin self.old }
        requires worker { worker < 17 }
        requires followed { HasFollowed worker self.old }
        ensures { Takes self.old self.new (λ S K e. e ≡ ev (Worker worker) (Check id answer.now)) }
    {
        match answer {
            Ok(()) => self.check(worker, id),
            Err(_errno) => {}
        }
    }

    /// A worker receives a notification: the call that is left to nobody.
    fn receive(&mut self, place: usize, number: u8, id: u64) -> Option<usize>
        requires within { IsWithin self.old }
        requires worker { number < 17 }
        requires few { self.old.counts.calls + 1 < 2 ^ 64 }
        ensures stands { (notif : NotifValue) → notif.id ≡ id → Takes self.old self.new (λ S K e. (e ≡ ev (Worker number) (Recv (Ok notif))) × (length K ≡ place)) }
        ensures left { (notif : NotifValue) → notif.id ≡ id → (P : PolicyValue) (S : ScriptValue) (K : List Event) (e : Event) → Stands P S K self.old → IsHistory S (e ∷ K)
            → e ≡ ev (Worker number) (Recv (Ok notif)) → length K ≡ place → is_some result ≡ leaves_unanswered Unanswered K e }
    {
        let call = self.seats[usize::from(number)].call;
        self.note_received(place, number, id);
        self.left(call)
    }

    /// A worker lets go of what it has open: the call that is left to nobody.
    fn let_go(&mut self, place: usize, worker: usize) -> Option<usize>
        requires within { IsWithin self.old }
        requires worker { worker < 17 }
        ensures stands { Takes self.old self.new (λ S K e. (e ≡ ev (Worker worker) LetGo) × (length K ≡ place)) }
        ensures left { (P : PolicyValue) (S : ScriptValue) (K : List Event) (e : Event) → Stands P S K self.old → IsHistory S (e ∷ K)
            → e ≡ ev (Worker worker) LetGo → length K ≡ place → is_some result ≡ leaves_unanswered Unanswered K e }
    {
        let call = self.seats[worker].call;
        self.note_let_go(place, worker);
        self.left(call)
    }

    /// A worker receives a notification.
    fn note_received(&mut self, place: usize, number: u8, id: u64)
        requires within { IsWithin self.old }
        requires worker { number < 17 }
        requires few { self.old.counts.calls + 1 < 2 ^ 64 }
        ensures stands { (notif : NotifValue) → notif.id ≡ id → Takes self.old self.new (λ S K e. (e ≡ ev (Worker number) (Recv (Ok notif))) × (length K ≡ place)) }
        ensures within { IsWithin self.new }
        ensures calls { calls_kept self.new ≡ calls_kept self.old }
    {
        self.counts.calls += 1;
        match self.calls.named(id) {
            Some(call) => {
                self.calls.rows[call].fetcher = Some(number);
                self.seats[usize::from(number)].begin(place, Some(call));
            }
            None => self.seats[usize::from(number)].begin(place, None),
        }
    }

    /// A worker lets go of what it has open.
    fn note_let_go(&mut self, place: usize, worker: usize)
        requires within { IsWithin self.old }
        requires worker { worker < 17 }
        ensures stands { Takes self.old self.new (λ S K e. (e ≡ ev (Worker worker) LetGo) × (length K ≡ place)) }
        ensures within { IsWithin self.new }
        ensures calls { calls_kept self.new ≡ calls_kept self.old }
    {
        self.seats[worker].let_go(place);
    }

    /// A worker has opened the memory of the task that holds a PID.
    fn open_memory(&mut self, worker: usize, holder: Option<u32>)
        requires within { IsWithin self.old }
        requires worker { worker < 17 }
        requires holder { IfSome holder (λ o. o < tasks_kept self.old) }
        ensures { (pid : ℕ) → Takes self.old self.new (λ S K e. (e ≡ ev (Worker worker) (OpenMem pid (Ok tt))) × HasHolder K pid holder) }
    {
        let memory = self.group_of(holder);
        let seat = &mut self.seats[worker];
        seat.memory = memory;
        seat.is_checked = false;
    }

    /// The group of a task.
    fn group_of(&self, task: Option<u32>) -> Option<u32>
        requires task { IfSome task (λ o. o < tasks_kept self.now) }
        ensures made { IsWithin self.now → IfSome result (λ g. g < self.now.groups) }
        ensures group { (P : PolicyValue) (S : ScriptValue) (K : List Event) (pid : ℕ) → Stands P S K self.now → HasHolder K pid task → opened K (holder_of K pid) ≡ place_of_group K result }
    {
        match task {
            Some(task) => Some(self.tasks[task as usize].group),
            None => None,
        }
    }

    /// A worker asks whether an id is valid, and it is.
    fn check(&mut self, worker: usize, id: u64)
        requires within { IsWithin self.old }
        requires worker { worker < 17 }
        requires some { (d : SeatValue) → (get_or self.old.seats.items worker d).followed ≤ length (get_or self.old.seats.items worker d).reads.items }
        requires followed { (d : SeatValue) → All (λ r. confirmed r ≡ r) (take (get_or self.old.seats.items worker d).followed (get_or self.old.seats.items worker d).reads.items) }
        ensures { Takes self.old self.new (λ S K e. e ≡ ev (Worker worker) (Check id (Ok tt))) }
    {
        if self.is_own_id(worker, id) {
            self.seats[worker].check();
        }
    }

    /// Whether an id is that of the call in hand.
    fn is_own_id(&self, worker: usize, id: u64) -> bool
        requires within { IsWithin self.now }
        requires worker { worker < 17 }
        ensures { (P : PolicyValue) (S : ScriptValue) (K : List Event) → Stands P S K self.now → result ≡ is_own_id_of K worker id }
    {
        match self.call_of(&self.seats[worker]) {
            Some(call) => call.called.id == id,
            None => false,
        }
    }

    /// A worker opens a directory of the task that holds a PID, or is answered why it can't.
    fn open_base(
        &mut self,
        script: &Script,
        worker: usize,
        holder: Option<u32>,
        dirfd: i32,
        answer: &Result<(), Errno>,
    )
        requires within { IsWithin self.old }
        requires worker { worker < 17 }
        requires holder { IfSome holder (λ o. o < tasks_kept self.old) }
        ensures { (pid : ℕ) → Takes self.old self.new (λ S K e. (S ≡ script.now) × (e ≡ ev (Worker worker) (OpenBase pid dirfd answer.now)) × HasHolder K pid holder) }
    {
        match answer {
            Ok(()) => self.note_base(script, worker, holder, dirfd),
            Err(errno) => self.note_refused(script, worker, dirfd, *errno),
        }
    }

    /// A worker has opened a directory of the task that holds a PID.
    fn note_base(&mut self, script: &Script, worker: usize, holder: Option<u32>, dirfd: i32)
        requires within { IsWithin self.old }
        requires worker { worker < 17 }
        requires holder { IfSome holder (λ o. o < tasks_kept self.old) }
        ensures { (pid : ℕ) → Takes self.old self.new (λ S K e. (S ≡ script.now) × (e ≡ ev (Worker worker) (OpenBase pid dirfd (Ok tt))) × HasHolder K pid holder) }
    {
        if let Some(group) = self.group_of(holder) {
            let base = self.directories.named(script, group, dirfd);
            let base_worth = self.base_now(script, worker, base);
            let seat = &mut self.seats[worker];
            seat.base = base;
            seat.base_worth = base_worth;
        }
    }

    /// How far a directory can be relied on that is opened now: whether it is the one from which the paths of the call in hand go.
    fn base_now(&self, script: &Script, worker: usize, base: Option<NodeRef>) -> Worth
        requires within { IsWithin self.now }
        requires worker { worker < 17 }
        ensures { (P : PolicyValue) (K : List Event) → Stands P script.now K self.now
            → worth_of result ≡ base_now_of script.now K (session_call K worker) (ordinal_of base) }
    {
        match self.call_of(&self.seats[worker]) {
            Some(call) => self.base_for(script, call, base),
            None => Worth::Foreign,
        }
    }

    /// The same for this call.
    fn base_for(&self, script: &Script, call: &Call, base: Option<NodeRef>) -> Worth
        requires within { IsWithin self.now }
        requires call { IsCallWithin self.now call.now }
        ensures { (P : PolicyValue) (K : List Event) (n : ℕ) → Stands P script.now K self.now → IsCall script.now K n call.now
            → worth_of result ≡ base_now_of script.now K (Some call.now.place) (ordinal_of base) }
    {
        if !self.is_of_call(script, call, base) {
            Worth::Foreign
        } else if call.is_listed {
            Worth::Fresh
        } else {
            Worth::Stale
        }
    }

    /// Whether a directory is the one from which the relative paths of a call go.
    fn is_of_call(&self, script: &Script, call: &Call, base: Option<NodeRef>) -> bool
        requires within { IsWithin self.now }
        requires call { IsCallWithin self.now call.now }
        ensures { (P : PolicyValue) (K : List Event) (n : ℕ) → Stands P script.now K self.now → IsCall script.now K n call.now
            → result ≡ is_of_call_by script.now K call.now.place (dirfd_of_call K call.now.place) (ordinal_of base) }
    {
        match base_dirfd(call.called.nr, &call.called.args) {
            Some(dirfd) => {
                let named = self
                    .directories
                    .named(script, self.caller_group(call), dirfd);
                is_node(base, named)
            }
            None => false,
        }
    }

    /// A worker is answered that it can't open a directory.
    fn note_refused(&mut self, script: &Script, worker: usize, dirfd: i32, errno: Errno)
        requires within { IsWithin self.old }
        requires worker { worker < 17 }
        ensures { (pid : ℕ) → Takes self.old self.new (λ S K e. (S ≡ script.now) × (e ≡ ev (Worker worker) (OpenBase pid dirfd (Err errno)))) }
    {
        if self.is_refused(script, worker, dirfd, errno) {
            self.seats[worker].is_base_refused = true;
        }
    }

    /// Whether an error says of the descriptor of the call in hand that it leads to no directory, and it does lead to none.
    fn is_refused(&self, script: &Script, worker: usize, dirfd: i32, errno: Errno) -> bool
        requires within { IsWithin self.now }
        requires worker { worker < 17 }
        ensures { (P : PolicyValue) (K : List Event) → Stands P script.now K self.now → result ≡ ((errno == ebadf) && of_call (session_call K worker) (λ c. has_no_base_of script.now K c dirfd)) }
    {
        errno == Errno::EBADF && self.has_no_base(script, worker, dirfd)
    }

    /// Whether the descriptor of the call in hand is this one, and leads to no directory.
    fn has_no_base(&self, script: &Script, worker: usize, dirfd: i32) -> bool
        requires within { IsWithin self.now }
        requires worker { worker < 17 }
        ensures { (P : PolicyValue) (K : List Event) → Stands P script.now K self.now → result ≡ of_call (session_call K worker) (λ c. has_no_base_of script.now K c dirfd) }
    {
        match self.call_of(&self.seats[worker]) {
            Some(call) => {
                let named = self
                    .directories
                    .named(script, self.caller_group(call), dirfd);
                is_base_of(call, dirfd) && named.is_none()
            }
            None => false,
        }
    }

    /// How far a read can be relied on that is made now.
    fn worth_now(&self, seat: &Seat, group: u32) -> Worth
        requires within { IsWithin self.now }
        requires call { IfSome seat.now.call (λ k. k < calls_kept self.now) }
        ensures { (P : PolicyValue) (S : ScriptValue) (K : List Event) (m : ℕ) → Stands P S K self.now → place_of_group K (Some group) ≡ Some m → worth_of result ≡ worth_of_now K (place_of_call K seat.now.call) m }
    {
        match self.call_of(seat) {
            Some(call) if self.caller_group(call) == group => {
                if call.is_listed {
                    Worth::Fresh
                } else {
                    Worth::Stale
                }
            }
            _ => Worth::Foreign,
        }
    }

    /// A worker reads in the memory that it has open.
    fn read(
        &mut self,
        place: usize,
        worker: usize,
        addr: u64,
        len: u16,
        answer: &Result<Text, Errno>,
    ) -> Result<(), NoMemory>
        requires within { IsWithin self.old }
        requires worker { worker < 17 }
        ensures { OnOk result (Takes self.old self.new (λ S K e. (e ≡ ev (Worker worker) (Read addr len answer.now)) × (length K ≡ place))) }
    {
        let Some(group) = self.seats[worker].memory else {
            return Ok(());
        };
        let worth = self.worth_now(&self.seats[worker], group);
        let answer = copied(self.alloc, answer)?;
        self.seats[worker].read(place, group, SeatRead::new(addr, len, answer, worth))?;
        Ok(())
    }
}

/// Whether two directories are one.
fn is_node(base: Option<NodeRef>, named: Option<NodeRef>) -> bool
    ensures { result ≡ is_base (ordinal_of base) (ordinal_of named) }
{
    match (base, named) {
        (Some(base), Some(named)) => base.ordinal == named.ordinal,
        _ => false,
    }
}

/// Whether a call's relative paths go from this descriptor.
fn is_base_of(call: &Call, dirfd: i32) -> bool
    ensures { result ≡ is_dirfd (base_dirfd call.now.called.nr call.now.called.args) dirfd }
{
    match base_dirfd(call.called.nr, &call.called.args) {
        Some(base) => base == dirfd,
        None => false,
    }
}

/// A copy of a read's answer.
fn copied(alloc: Global, answer: &Result<Text, Errno>) -> Result<Result<Text, Errno>, NoMemory>
    ensures { IfOk result (λ copy. copy ≡ answer.now) }
{
    match answer {
        Ok(bytes) => Ok(Ok(bytes.copied(alloc)?)),
        Err(errno) => Ok(Err(*errno)),
    }
}
