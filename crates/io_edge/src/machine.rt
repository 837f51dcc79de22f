//! The machine's files and writers. What they hold isn't known to any proof: this is the trusted edge.

ghost use Rattle.std.specs.Prelude.{◌≡◌, ◌≤◌, List, [], None, false, option_map, ℕ, length, IfOk, OnErr, is_ok};
ghost use Rattle.io_edge.specs.Faults.{Rose};

use crate::fault::Failed;
use crate::files::Files;
use crate::sink::Sink;
use std::alloc::Global;
use std::io::{Read, Write};
use std::{fs, rt};
use sys_abi::memory::NoMemory;

/// The machine's files. Each error of the machine is a fault. It tells no bytes, and so isn't sound.
#[derive(Drop)]
pub struct RealFiles<'a, R: rt::Files> {
    rt: &'a R,
    current: Option<R::File>,
    // how many bytes reads gave since the last `open`
    given: u64,
    faults: u64,
}

impl<'a, R: rt::Files> RealFiles<'a, R> {
    /// The files of this runtime. There is no current file yet.
    pub fn new(rt: &'a R) -> RealFiles<'a, R>
        ensures { ⟦<RealFiles<'a, R> as Files>⟧.state result ≡ record {
          tells = false;
          bytes = λ _. None;
          current = None;
          left = [];
          given = 0;
          sound = false;
          faults = 0;
        } }
    {
        RealFiles {
            rt,
            current: None,
            given: 0,
            faults: 0,
        }
    }
}

impl<R: rt::Files> Files for RealFiles<'_, R> {
    ghost use Rattle.io_edge.specs.FileState.{FileState};

    ghost state = { λ f. record {
      tells = false;
      bytes = λ _. None;
      current = option_map (λ _. []) f.current;
      left = [];
      given = f.given;
      sound = false;
      faults = f.faults;
    } };

    ghost sound_tells = { λ files sound. sound };

    fn open(&mut self, name: &str) -> Result<(), Failed> {
        self.current = None;
        self.given = 0;
        match fs::open(self.rt, name) {
            Ok(file) => {
                self.current = Some(file);
                Ok(())
            }
            Err(_) => Err(Failed::counted(&mut self.faults)),
        }
    }

    fn read(&mut self, buf: &mut [u8]) -> Result<usize, Failed> {
        let outcome = match &mut self.current {
            Some(file) => file.read(buf),
            None => unreachable!(),
        };
        match outcome {
            Ok(count) => {
                self.given = self.given.saturating_add(count as u64);
                Ok(count)
            }
            Err(_) => Err(Failed::counted(&mut self.faults)),
        }
    }
}

/// How many bytes are gathered before they are written.
const GATHERED: usize = 65536;

/// A sink over a writer, as standard output. It gathers what it takes and writes large pieces; what is
/// gathered is written at `flush` at the latest. Each error of the writer is a fault, and so is a write
/// that takes nothing of a piece that isn't empty. What couldn't be written isn't written again. It tells
/// no bytes.
#[derive(Drop)]
pub struct RealSink<W: Write + Drop> {
    inner: W,
    // what was taken and not written yet, and room for more behind it
    room: Vec<u8>,
    // how many bytes of the room those are
    len: usize,
    // something was taken since the last good flush
    pending: bool,
    faults: u64,
    ghost size: { length room.items ≡ 65536 },
    ghost within: { len ≤ 65536 },
}

impl<W: Write + Drop> RealSink<W> {
    /// A sink over this writer. All its memory is taken here; `NoMemory` comes where there is none.
    pub fn new(alloc: Global, inner: W) -> Result<RealSink<W>, NoMemory>
        ensures { IfOk result (λ sink. ⟦<RealSink<W> as Sink>⟧.state sink
            ≡ record { tells = false; taken = []; faults = 0; pending = false }) }
    {
        let room = vec![in alloc; 0; GATHERED]?;
        Ok(RealSink {
            inner,
            room,
            len: 0,
            pending: false,
            faults: 0,
        })
    }

    /// Writes what was gathered.
    fn write_gathered(&mut self) -> Result<(), Failed>
        ensures faults { self.old.faults ≤ self.new.faults }
        ensures cause { OnErr result (Rose self.old.faults self.new.faults) }
        ensures emptied { self.new.len ≡ 0 }
        ensures pending { self.new.pending ≡ self.old.pending }
    {
        let written = write_whole(&mut self.inner, &self.room[..self.len]);
        self.len = 0;
        counted(written, &mut self.faults)
    }
}

/// The answer of an act of the writer, which was good or failed; a failure is counted.
fn counted(good: bool, faults: &mut u64) -> Result<(), Failed>
    ensures good { is_ok result ≡ good }
    ensures faults { faults.old ≤ faults.new }
    ensures cause { OnErr result (Rose faults.old faults.new) }
{
    if good {
        Ok(())
    } else {
        Err(Failed::counted(faults))
    }
}

/// Writes all of the bytes, and tells whether the writer took them.
fn write_whole<W: Write>(inner: &mut W, bytes: &[u8]) -> bool {
    let mut rest = bytes;
    'pieces: while !rest.is_empty() {
        match inner.write(rest) {
            Ok(count) if count != 0 => rest = &rest[count..],
            _ => return false,
        }
    }
    true
}

impl<W: Write + Drop> Sink for RealSink<W> {
    ghost use Rattle.io_edge.specs.SinkState.{SinkState};

    ghost state = { λ s. record { tells = false; taken = []; faults = s.faults; pending = s.pending } };

    fn write(&mut self, piece: &[u8]) -> Result<(), Failed> {
        self.pending = true;
        if piece.len() > GATHERED - self.len {
            self.write_gathered()?;
        }
        if piece.len() > GATHERED {
            return counted(write_whole(&mut self.inner, piece), &mut self.faults);
        }
        let end = self.len + piece.len();
        self.room[self.len..end].copy_from_slice(piece);
        self.len = end;
        Ok(())
    }

    fn flush(&mut self) -> Result<(), Failed> {
        self.write_gathered()?;
        counted(self.inner.flush().is_ok(), &mut self.faults)?;
        self.pending = false;
        Ok(())
    }
}
