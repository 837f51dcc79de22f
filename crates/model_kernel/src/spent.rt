//! How often the caps of rules were spent.

ghost use Rattle.std.specs.Prelude.{◌≡◌, ℕ, ◌+◌, ◌++◌, ◌<◌, false, if◌then◌else◌, None, OnOk, nat_eq};
ghost use Rattle.std.specs.HashMap.{get};
ghost use Rattle.hist_model.specs.Steps.{is_cap_of};

use hist_model::policy::Cap;
use key_bytes::push_number;
use std::alloc::Global;
use std::collections::HashMap;
use sys_abi::memory::NoMemory;

/// How often effects were done under the cap of each rule.
#[derive(Drop)]
pub(crate) struct SpentRows {
    /// By the rule's place in its policy; a rule under whose cap nothing was done has no row.
    times: HashMap<u32, u32>,
    /// No later rule has a row.
    last: u32,
    ghost none_later: { (rule : ℕ) → last < rule → get nat_eq times rule ≡ None },
}

impl SpentRows {
    ghost use Rattle.model_kernel.specs.Keys.{spent_part};
    ghost use Rattle.model_kernel.specs.Spent.{times_in, is_spent_in, HasRoom, SameTimes};

    /// Nothing was done yet.
    pub(crate) fn new(alloc: Global) -> SpentRows
        ensures { (rule : ℕ) → times_in result rule ≡ 0 }
    {
        SpentRows {
            times: HashMap::new(alloc),
            last: 0,
        }
    }

    /// Adds the part of these rows in a key: how often the cap of each rule was spent, up to the last that was.
    pub(crate) fn write_key(&self, key: &mut Vec<u8>) -> Result<(), NoMemory>
        ensures { OnOk result (key.new.items ≡ key.old.items ++ spent_part self.now) }
    {
        push_number(key, u64::from(self.last))?;
        for rule in 0..self.last {
            push_number(key, u64::from(self.times(rule)))?;
        }
        push_number(key, u64::from(self.times(self.last)))
    }

    /// How often effects were done under the cap of a rule.
    fn times(&self, rule: u32) -> u32
        ensures { result ≡ times_in self.now rule }
    {
        match self.times.get(&rule) {
            Some(times) => *times,
            None => 0,
        }
    }

    /// Whether a rule has granted as often as it may. One without a cap may always grant.
    pub(crate) fn is_spent(&self, cap: Option<Cap>) -> bool
        ensures { result ≡ is_spent_in self.now cap }
    {
        match cap {
            Some(cap) => cap.times <= self.times(cap.rule),
            None => false,
        }
    }

    /// Makes room for one `spend` of this cap, which then takes no memory.
    pub(crate) fn ready(&mut self, cap: Option<Cap>) -> Result<(), NoMemory>
        ensures room { OnOk result (HasRoom self.new cap) }
        ensures same { SameTimes self.old self.new }
    {
        let Some(cap) = cap else {
            return Ok(());
        };
        if !self.times.contains_key(&cap.rule) {
            self.times.reserve(1)?;
        }
        Ok(())
    }

    /// An effect was done under this cap, which is not spent, and for which there is room.
    pub(crate) fn spend(&mut self, cap: Option<Cap>)
        requires left { is_spent_in self.old cap ≡ false }
        requires room { HasRoom self.old cap }
        ensures { (rule : ℕ) → times_in self.new rule ≡ times_in self.old rule + (if is_cap_of cap rule then 1 else 0) }
    {
        let Some(cap) = cap else {
            return;
        };
        let times = self.times(cap.rule) + 1;
        self.last = self.last.max(cap.rule);
        let Ok(_) = self.times.insert(cap.rule, times) else {
            unreachable!()
        };
    }
}
