//! The effects, in their order.

ghost use Rattle.std.specs.Prelude.{◌≡◌, option_map};
ghost use Rattle.judge_pass.specs.Tables.{with_installed};

use hist_model::text::{Sequence, Text};
use sys_abi::errno::Errno;

/// An effect.
#[derive(Debug, Drop)]
pub(crate) struct Done {
    pub(crate) place: usize,
    /// The call that its seat had in hand.
    pub(crate) call: usize,
    /// For a request for a descriptor, what it came to.
    pub(crate) put: Option<Put>,
    /// Its outcome was told to a later call.
    pub(crate) is_told: bool,
}

/// A request for a descriptor.
#[derive(Debug, Drop)]
pub(crate) struct Put {
    /// The listed call that its id named.
    pub(crate) call: Option<usize>,
    /// What its installation answered.
    pub(crate) installed: Option<Result<u32, Errno>>,
    /// The texts of the whole copies that were there.
    pub(crate) texts: Vec<Sequence<Text>>,
}

impl Done {
    /// Its installation has answered.
    pub(crate) fn install(&mut self, answer: &Result<u32, Errno>)
        ensures put { self.new.put ≡ option_map (with_installed answer.now) self.old.put }
        ensures rest { self.new ≡ record self.old { put = self.new.put } }
    {
        if let Some(put) = &mut self.put {
            put.installed = Some(*answer);
        }
    }
}
