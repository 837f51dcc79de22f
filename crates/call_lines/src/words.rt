//! The words that begin calls.

ghost use Rattle.std.specs.Prelude.{◌≡◌};
ghost use Rattle.call_lines.specs.Requests.{words};
ghost use Rattle.policy_reader.specs.Readings.{named};

use policy_reader::texts::named;

/// The word that begins a call.
#[derive(Clone, Copy)]
pub enum Word {
    Mknod,
    Mknodat,
    Mount,
    Setxattr,
    Openat,
    Sysinfo,
    Close,
    Getpid,
    /// A call that has no name.
    Other,
}

/// Each word, as it is written.
const WORDS: [(&'static str, Word); 9] = [
    ("mknod", Word::Mknod),
    ("mknodat", Word::Mknodat),
    ("mount", Word::Mount),
    ("setxattr", Word::Setxattr),
    ("openat", Word::Openat),
    ("sysinfo", Word::Sysinfo),
    ("close", Word::Close),
    ("getpid", Word::Getpid),
    ("other", Word::Other),
];

/// The word that is written so.
pub fn word_named(name: &[u8]) -> Option<Word>
    ensures { result ≡ named words name.now }
{
    named(&WORDS, name)
}
