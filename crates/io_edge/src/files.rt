//! Sources of files.

ghost use Rattle.std.specs.Prelude.{◌≡◌, true, IsSome};
ghost use Rattle.io_edge.specs.FileState.{FileState, Opens, Reads};

use crate::fault::Failed;

/// A source of files, which reads one file at a time: the current file.
///
/// Contracts see the bytes of each name where the source tells them, the current file and what is left
/// of it, whether the source is sound, and a count of faults. No call changes the files, and no count
/// falls. `Failed` comes only where the count rose in that call; a count at 2^64 - 1 counts as risen. A
/// sound source tells its bytes, stays sound, and fails exactly where `open` is given a name that isn't
/// there.
pub trait Files {
    /// What is known of the source.
    ghost state: { Self → FileState };

    /// Makes the file of this name the current one, at its beginning. There is none after `Failed`.
    fn open(&mut self, name: &str) -> Result<(), Failed>
        ensures { Opens (state self.old) name.now result (state self.new) };

    /// Puts the next bytes of the current file at the front of `buf`, and gives their number. 0 for a
    /// buffer that isn't empty is the end. `Failed` leaves the current file where it was.
    fn read(&mut self, buf: &mut [u8]) -> Result<usize, Failed>
        requires { IsSome (state self.old).current }
        ensures { Reads (state self.old) buf.old result buf.new (state self.new) };

    /// A sound source tells its bytes.
    ghost sound_tells: { (files : Self) → (state files).sound ≡ true → (state files).tells ≡ true };
}
