//! Which tasks are worth a try, so that hands needn't try all.
//!
//! A task that couldn't step is worth a try again once its call was answered or a descriptor was asked for in it, a signal was
//! sent to it, or one of its children ended. This is a hint, taken from the history's new events and the kernel's own tables:
//! only the kernel decides what a try does.

use hist_model::event::{Actor, Delivered, Entered, Event, What};
use model_kernel::Kernel;
use std::alloc::Global;
use std::collections::VecDeque;
use sys_abi::memory::NoMemory;

/// The tasks that are worth a try, in the order in which they are tried.
pub(crate) struct Runnable {
    /// How many of the history's events were read.
    events: usize,
    queue: VecDeque<u32>,
    /// Whether a task is in the queue, by its ordinal.
    is_queued: Vec<bool>,
}

// (written out, so that what letting one go comes to is proved once, and not at each place that lets one go)
impl Drop for Runnable {
    fn drop(self) {
        let Runnable {
            events: _events,
            queue: _queue,
            is_queued: _is_queued,
        } = self;
    }
}

/// The ordinal of the parent of the task that took a step, if one did.
fn parent_of(kernel: &Kernel, who: &Actor) -> Option<u32> {
    match who {
        Actor::Task(name) => match name.items().split_last() {
            Some((_, parent)) => kernel.find(parent),
            None => None,
        },
        _ => None,
    }
}

impl Runnable {
    /// Before any event was read.
    pub(crate) fn new(alloc: Global) -> Runnable {
        Runnable {
            events: 0,
            queue: VecDeque::new(alloc),
            is_queued: Vec::new(alloc),
        }
    }

    /// Whether a task is worth a try.
    pub(crate) fn has_tasks(&self) -> bool {
        !self.queue.is_empty()
    }

    /// Puts a task into the queue, unless it is there.
    pub(crate) fn put(&mut self, task: u32) -> Result<(), NoMemory> {
        if let Some(is_queued) = self.is_queued.get_mut(task as usize)
            && !*is_queued
        {
            *is_queued = true;
            self.queue.push_back(task)?;
        }
        Ok(())
    }

    /// Takes the next task to try out of the queue.
    pub(crate) fn take(&mut self) -> Option<u32> {
        let task = self.queue.pop_front()?;
        if let Some(is_queued) = self.is_queued.get_mut(task as usize) {
            *is_queued = false;
        }
        Some(task)
    }

    /// Puts a task into the queue, if there is one.
    fn put_found(&mut self, task: Option<u32>) -> Result<(), NoMemory> {
        match task {
            Some(task) => self.put(task),
            None => Ok(()),
        }
    }

    /// A task was made.
    fn add(&mut self) -> Result<(), NoMemory> {
        let Ok(task) = u32::try_from(self.is_queued.len()) else {
            return Ok(());
        };
        self.is_queued.push(false)?;
        self.put(task)
    }

    /// Reads a task's event.
    fn read_task(&mut self, kernel: &Kernel, event: &Event) -> Result<(), NoMemory> {
        match &event.what {
            What::Spawn { answer: Ok(_), .. } => self.add(),
            What::Signal {
                pid,
                answer: Ok(()),
                ..
            } => self.put_found(kernel.holder(*pid)),
            What::Exit
            | What::Enter {
                verdict: Entered::Kill,
                ..
            }
            | What::Deliver {
                effect: Delivered::End,
                ..
            } => self.put_found(parent_of(kernel, &event.who)),
            _ => Ok(()),
        }
    }

    /// Reads a worker's event. The call that it answers, or asks for a descriptor in, is listed until its task steps.
    fn read_worker(&mut self, kernel: &Kernel, what: &What) -> Result<(), NoMemory> {
        match what {
            What::Send {
                id,
                answer: Ok(()),
                ..
            } => self.put_found(kernel.caller(*id)),
            What::AddfdPut {
                asked,
                answer: Ok(()),
            } => self.put_found(kernel.caller(asked.id)),
            _ => Ok(()),
        }
    }

    /// Reads an event.
    fn read(&mut self, kernel: &Kernel, event: &Event) -> Result<(), NoMemory> {
        match &event.who {
            Actor::Worker(_) => self.read_worker(kernel, &event.what),
            _ => self.read_task(kernel, event),
        }
    }

    /// Reads the history's new events, and tells whether a worker's request may have come to something by them.
    pub(crate) fn catch_up(&mut self, kernel: &Kernel) -> Result<bool, NoMemory> {
        let mut settled = false;
        for place in self.events..kernel.history().len() {
            if let Some(event) = kernel.history().get(place) {
                self.read(kernel, event)?;
                settled |= settles(&event.what);
            }
            self.events = place + 1;
        }
        Ok(settled)
    }
}

/// Whether a worker's request may have come to something by an event.
fn settles(what: &What) -> bool {
    match what {
        What::Install { .. } | What::Resume { .. } | What::Deliver { .. } => true,
        _ => false,
    }
}
