//! Files and sinks in memory, which fail where they are asked to.

ghost use Rattle.std.specs.Prelude.{◌≡◌, ◌<◌, ◌≤◌, ◌==◌, ◌||◌, true, false, refl, [], None, Ok, length, min, take, drop, ◌-◌, ◌++◌, vec_len, vec_capacity, IfOk, IfSome, IsSome, is_err, is_none, nat_lt, option_map, if◌then◌else◌};
ghost use Rattle.std.specs.Option.{ForSome};
ghost use Rattle.io_edge.specs.Named.{bytes_at, bytes_named, name_at, left_at, place_named};
ghost use Rattle.io_edge.specs.FileState.{Opens, Reads};
ghost use Rattle.io_edge.specs.SinkState.{Flushes, Writes};
ghost use Rattle.io_edge.specs.Planned.{fails_next, after_call};

use crate::fault::Failed;
use crate::files::Files;
use crate::plan::Plan;
use crate::sink::Sink;
use std::alloc::Global;
use sys_abi::memory::NoMemory;

/// Files in memory. Of two entries with one name the first counts. A read gives as many bytes as there
/// are left and fit into the buffer.
#[derive(Debug, Drop)]
pub struct MemFiles {
    files: Vec<(String, Vec<u8>)>,
    plan: Plan,
    // the place of the current file
    current: Option<usize>,
    // how many bytes reads gave since the last `open`
    given: usize,
    ghost in_range: { ForSome current (λ place. place < vec_len files) },
    ghost within: { ForSome current (λ place. given ≤ length (bytes_at files.items place)) },
}

impl MemFiles {
    /// These files, as pairs of a name and its bytes. Calls of `open` and `read` are counted together
    /// from 1, and those in `failing` fail; `open` also fails where the name isn't there. The source
    /// tells its bytes, and is sound exactly where `failing` is empty.
    pub fn new(files: Vec<(String, Vec<u8>)>, failing: Vec<u64>) -> MemFiles
        ensures state { ⟦<MemFiles as Files>⟧.state result ≡ record {
          tells = true;
          bytes = bytes_named files.items;
          current = None;
          left = [];
          given = 0;
          sound = length failing.items == 0;
          faults = 0;
        } }
        ensures plan { result.plan ≡ record { listed = failing; calls = 0; faults = 0 } }
    {
        MemFiles {
            files,
            plan: Plan::new(failing),
            current: None,
            given: 0,
        }
    }
}

/// The place of the first entry of this name.
fn find(files: &[(String, Vec<u8>)], name: &str) -> Option<usize>
    ensures place { result ≡ place_named files.now name.now }
    ensures in_range { IfSome result (λ place. place < length files.now) }
{
    files.iter().position(|entry| entry.0.as_str() == name)
}

impl Files for MemFiles {
    ghost use Rattle.io_edge.specs.FileState.{FileState};

    ghost state = { λ f. record {
      tells = true;
      bytes = bytes_named f.files.items;
      current = option_map (name_at f.files.items) f.current;
      left = left_at f.files.items f.current f.given;
      given = f.given;
      sound = length f.plan.listed.items == 0;
      faults = f.plan.faults;
    } };

    ghost sound_tells = { λ files sound. refl };

    #[tactic(auto, using(crate::proofs::Counts::none_listed))]
    fn open(&mut self, name: &str) -> Result<(), Failed>
        ensures opens { Opens (⟦<MemFiles as Files>⟧.state self.old) name.now result
            (⟦<MemFiles as Files>⟧.state self.new) }
        ensures fails { is_err result
            ≡ (fails_next self.old.plan || is_none ((⟦<MemFiles as Files>⟧.state self.old).bytes name.now)) }
        ensures plan { self.new.plan ≡ after_call self.old.plan (is_err result) }
    {
        self.current = None;
        self.given = 0;
        let fails = self.plan.begin();
        let found = find(&self.files, name);
        if fails || found.is_none() {
            return Err(self.plan.fail());
        }
        self.current = found;
        Ok(())
    }

    #[tactic(auto, using(crate::proofs::Counts::none_listed))]
    fn read(&mut self, buf: &mut [u8]) -> Result<usize, Failed>
        requires { IsSome self.old.current }
        ensures reads { Reads (⟦<MemFiles as Files>⟧.state self.old) buf.old result buf.new
            (⟦<MemFiles as Files>⟧.state self.new) }
        ensures fails { is_err result ≡ fails_next self.old.plan }
        ensures most { IfOk result
            (λ n. n ≡ min (length buf.old) (length (⟦<MemFiles as Files>⟧.state self.old).left)) }
        ensures plan { self.new.plan ≡ after_call self.old.plan (is_err result) }
    {
        if self.plan.begin() {
            return Err(self.plan.fail());
        }
        let left = self.left();
        let count = left.len().min(buf.len());
        buf[..count].copy_from_slice(&left[..count]);
        self.given += count;
        Ok(count)
    }
}

impl MemFiles {
    /// What is left of the current file.
    fn left(&self) -> &[u8]
        ensures { result.now ≡ left_at self.now.files.items self.now.current self.now.given }
    {
        match self.current {
            Some(place) => &self.files[place].1[self.given..],
            None => &[],
        }
    }
}

/// A sink in memory that takes so many bytes at most.
#[derive(Debug, Drop)]
pub struct MemSink {
    taken: Vec<u8>,
    // how many bytes it takes at most
    room: usize,
    plan: Plan,
    ghost reserved: { room ≤ vec_capacity taken },
    ghost within: { vec_len taken ≤ room },
}

impl MemSink {
    /// A sink with room for so many bytes. Calls of `write` are counted from 1; those in `failing` fail,
    /// and take nothing. A piece that doesn't fit into what is left of the room fails after the bytes
    /// that fit. All its memory is taken here; `NoMemory` comes where there is none for the room.
    pub fn new(alloc: Global, room: usize, failing: Vec<u64>) -> Result<MemSink, NoMemory>
        ensures state { IfOk result (λ sink. ⟦<MemSink as Sink>⟧.state sink ≡ record {
          tells = true;
          taken = [];
          faults = 0;
          pending = false;
        }) }
        ensures room { IfOk result (λ sink. sink.room ≡ room) }
        ensures plan { IfOk result
            (λ sink. sink.plan ≡ record { listed = failing; calls = 0; faults = 0 }) }
    {
        let taken = Vec::with_capacity(alloc, room)?;
        Ok(MemSink {
            taken,
            room,
            plan: Plan::new(failing),
        })
    }

    /// The bytes that it took.
    pub fn taken(&self) -> &[u8]
        ensures { result.now ≡ (⟦<MemSink as Sink>⟧.state self.now).taken }
    {
        self.taken.as_slice()
    }
}

impl Sink for MemSink {
    ghost use Rattle.io_edge.specs.SinkState.{SinkState};

    ghost state = { λ s. record { tells = true; taken = s.taken.items; faults = s.plan.faults; pending = false } };

    fn write(&mut self, piece: &[u8]) -> Result<(), Failed>
        ensures writes { Writes (⟦<MemSink as Sink>⟧.state self.old) piece.now result
            (⟦<MemSink as Sink>⟧.state self.new) }
        ensures fails { is_err result
            ≡ (fails_next self.old.plan || nat_lt (self.old.room - vec_len self.old.taken) (length piece.now)) }
        ensures taken { self.new.taken.items ≡ (if fails_next self.old.plan then self.old.taken.items
            else self.old.taken.items ++ take (self.old.room - vec_len self.old.taken) piece.now) }
        ensures room { self.new.room ≡ self.old.room }
        ensures plan { self.new.plan ≡ after_call self.old.plan (is_err result) }
    {
        if self.plan.begin() {
            return Err(self.plan.fail());
        }
        let fits = piece.len().min(self.room - self.taken.len());
        self.taken.extend_from_slice(&piece[..fits]).unwrap();
        if fits < piece.len() {
            return Err(self.plan.fail());
        }
        Ok(())
    }

    /// Each line is a write, so that each can fail.
    fn gathers(&self) -> usize {
        1
    }

    /// What was taken stands at once, so this does nothing, and isn't counted.
    fn flush(&mut self) -> Result<(), Failed>
        ensures flushes { Flushes (⟦<MemSink as Sink>⟧.state self.old) result (⟦<MemSink as Sink>⟧.state self.new) }
        ensures good { result ≡ Ok tt }
        ensures same { self.new ≡ self.old }
    {
        Ok(())
    }
}
