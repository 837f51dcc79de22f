//! A policy, a script and a report in memory, as a source of files.

ghost use Rattle.std.specs.Prelude.{◌≡◌, ◌≤◌, refl, [], length, drop};
ghost use Rattle.std.specs.Option.{ForSome, option_map_or};
ghost use Rattle.broker_c.specs.Given.{bytes_of, file_of, files_at, files_of};

use io_edge::fault::Failed;
use io_edge::files::Files;

/// The name of the policy's file.
pub(crate) const POLICY: &str = "policy";

/// The name of the script's file.
pub(crate) const SCRIPT: &str = "script";

/// The name of the report's file.
pub(crate) const REPORT: &str = "report";

/// One of the files in memory.
#[derive(Clone, Copy)]
pub(crate) enum GivenFile {
    Policy,
    Script,
    Report,
}

/// A policy, a script and a report in memory, as the files of three names. Every other name isn't there. A read gives as many bytes as
/// there are left and fit into the buffer.
#[derive(Drop)]
pub(crate) struct GivenFiles<'a> {
    policy: &'a [u8],
    script: &'a [u8],
    report: &'a [u8],
    current: Option<GivenFile>,
    // how many bytes reads gave since the last `open`
    given: usize,
    faults: u64,
    ghost within: { ForSome current (λ file. given ≤ length (bytes_of policy.now script.now report.now file)) },
}

/// The file of this name.
fn file_of(name: &str) -> Option<GivenFile>
    ensures { result ≡ file_of name.now }
{
    if name.as_bytes() == b"policy".as_slice() {
        Some(GivenFile::Policy)
    } else if name.as_bytes() == b"script".as_slice() {
        Some(GivenFile::Script)
    } else if name.as_bytes() == b"report".as_slice() {
        Some(GivenFile::Report)
    } else {
        None
    }
}

impl<'a> GivenFiles<'a> {
    /// This policy, this script and this report. There is no current file yet.
    pub(crate) fn new(policy: &'a [u8], script: &'a [u8], report: &'a [u8]) -> GivenFiles<'a>
        ensures { ⟦<GivenFiles<'a> as Files>⟧.state result ≡ files_of policy.now script.now report.now }
    {
        GivenFiles {
            policy,
            script,
            report,
            current: None,
            given: 0,
            faults: 0,
        }
    }

    /// The bytes of a file.
    fn bytes(&self, file: GivenFile) -> &[u8]
        ensures { result.now ≡ bytes_of self.now.policy.now self.now.script.now self.now.report.now file }
    {
        match file {
            GivenFile::Policy => self.policy,
            GivenFile::Script => self.script,
            GivenFile::Report => self.report,
        }
    }

    /// What is left of the current file.
    fn left(&self) -> &[u8]
        ensures { result.now ≡ option_map_or (λ file. drop self.now.given (bytes_of self.now.policy.now self.now.script.now self.now.report.now file)) self.now.current [] }
    {
        match self.current {
            Some(file) => &self.bytes(file)[self.given..],
            None => &[],
        }
    }
}

impl Files for GivenFiles<'_> {
    ghost use Rattle.io_edge.specs.FileState.{FileState};

    ghost state = { λ f. files_at f.policy.now f.script.now f.report.now f.current f.given f.faults };

    ghost sound_tells = { λ files sound. refl };

    fn open(&mut self, name: &str) -> Result<(), Failed> {
        self.given = 0;
        self.current = file_of(name);
        if self.current.is_none() {
            self.faults = self.faults.saturating_add(1);
            return Err(Failed);
        }
        Ok(())
    }

    fn read(&mut self, buf: &mut [u8]) -> Result<usize, Failed> {
        let left = self.left();
        let count = left.len().min(buf.len());
        buf[..count].copy_from_slice(&left[..count]);
        self.given += count;
        Ok(count)
    }
}
