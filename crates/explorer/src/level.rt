//! The states to which histories of one length lead, found by their keys.

ghost use Rattle.std.specs.Prelude.{◌≡◌, ◌<◌, [], ℕ, List, length, get_or, IfSome, OnOk};
ghost use Rattle.explorer.specs.Joining.{JoinsIn, keys_in};

use crate::frames::Frame;
use crate::state::{Bound, State};
use std::alloc::Global;
use std::collections::HashMap;
use sys_abi::memory::NoMemory;

/// The states, each with its key, and the place of the newest one whose key has a digest.
///
/// Two keys may have one digest. So a state that is found by it counts only where its key is the one that was looked for; where another
/// one stands in its way, the histories are joined to a state more than is needed.
#[derive(Drop)]
pub(crate) struct Level {
    states: Vec<State>,
    keys: Vec<Vec<u8>>,
    places: HashMap<u64, usize>,
}

/// The digest of a key (FNV-1a).
fn digest_of(key: &[u8]) -> u64 {
    let mut digest: u64 = 0xcbf2_9ce4_8422_2325;
    for byte in key {
        digest = (digest ^ u64::from(*byte)).wrapping_mul(0x0100_0000_01b3);
    }
    digest
}

impl Level {
    /// No state.
    pub(crate) fn none(alloc: Global) -> Level
        ensures states { result.states.items ≡ [] }
        ensures keys { result.keys.items ≡ [] }
    {
        Level {
            states: Vec::new(alloc),
            keys: Vec::new(alloc),
            places: HashMap::new(alloc),
        }
    }

    /// The place of a state with this key, if one is found.
    fn place_of(&self, digest: u64, key: &[u8]) -> Option<usize>
        requires { length self.now.keys.items ≡ length self.now.states.items }
        ensures { IfSome result (λ place. (place < length self.now.states.items) × ((k : List ℕ) → get_or (keys_in self.now) place k ≡ key.now)) }
    {
        let place = *self.places.get(&digest)?;
        if place < self.keys.len() && self.keys[place].as_slice() == key {
            Some(place)
        } else {
            None
        }
    }

    /// Joins the histories of a state that lead by a turn to the state with this key, after so many delays more.
    pub(crate) fn join(
        &mut self,
        alloc: Global,
        mut key: Vec<u8>,
        from: &State,
        frame: Frame,
        delays: u64,
        bound: Bound,
    ) -> Result<(), NoMemory>
        requires one_each { length self.old.keys.items ≡ length self.old.states.items }
        ensures { OnOk result (JoinsIn bound delays frame from.now key.items self.old self.new) }
    {
        let digest = digest_of(key.as_slice());
        if let Some(place) = self.place_of(digest, key.as_slice()) {
            self.states[place].join(alloc, from, frame, delays, bound)?;
            return Ok(());
        }
        self.places.insert(digest, self.states.len())?;
        let state = State::after_turn(alloc, from, frame, delays, bound)?;
        self.states.push(state)?;
        // (a key is written with room for more, and there are as many keys as states)
        key.shrink_to_fit();
        self.keys.push(key)?;
        Ok(())
    }

    /// The states.
    pub(crate) fn into_states(self) -> Vec<State>
        ensures { result.items ≡ self.states.items }
    {
        let Level {
            states,
            keys: _keys,
            places: _places,
        } = self;
        states
    }
}
