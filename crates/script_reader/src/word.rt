//! The words that begin the lines of a script, and the parts in which they may stand.

ghost use Rattle.std.specs.Prelude.{◌≡◌};
ghost use Rattle.script_reader.specs.Words.{belongs, in_block, rows_of, slot_of, word_at, word_of};

/// The word that begins a line, but for those of a filter's instructions.
#[derive(Clone, Copy)]
pub enum Word {
    Pidmax,
    Pidbase,
    Firstid,
    Rlimit,
    Dir,
    Reg,
    Fifo,
    Sock,
    Link,
    Chr,
    Blk,
    Attr,
    Root,
    Broker,
    Map,
    Cgroup,
    Figures,
    Notify,
    Filter,
    Killable,
    Prog,
    Poke,
    Fill,
    Call,
    Spawn,
    Thread,
    Kill,
    Handler,
    Wait,
    Exit,
    Schedule,
    /// `t`, steps of a task.
    Task,
    /// `w`, steps of a worker.
    Worker,
    End,
}

/// Where a line stands.
#[derive(Clone, Copy)]
pub enum Section {
    /// Among the settings, outside the blocks of filters.
    Settings,
    /// In the block of a filter.
    Filter,
    /// Behind a program, outside the blocks of programs.
    Programs,
    /// In the block of a program.
    Program,
    /// In the block of a program, after `exit`.
    Exited,
    /// In the schedule.
    Schedule,
    /// Behind the schedule.
    Over,
}

/// A word as it is written.
type Row = (&'static str, Word);

const WORDS: [Row; 34] = [
    ("pidmax", Word::Pidmax),
    ("pidbase", Word::Pidbase),
    ("firstid", Word::Firstid),
    ("rlimit", Word::Rlimit),
    ("dir", Word::Dir),
    ("reg", Word::Reg),
    ("fifo", Word::Fifo),
    ("sock", Word::Sock),
    ("link", Word::Link),
    ("chr", Word::Chr),
    ("blk", Word::Blk),
    ("attr", Word::Attr),
    ("root", Word::Root),
    ("broker", Word::Broker),
    ("map", Word::Map),
    ("cgroup", Word::Cgroup),
    ("figures", Word::Figures),
    ("notify", Word::Notify),
    ("filter", Word::Filter),
    ("killable", Word::Killable),
    ("prog", Word::Prog),
    ("poke", Word::Poke),
    ("fill", Word::Fill),
    ("call", Word::Call),
    ("spawn", Word::Spawn),
    ("thread", Word::Thread),
    ("kill", Word::Kill),
    ("handler", Word::Handler),
    ("wait", Word::Wait),
    ("exit", Word::Exit),
    ("schedule", Word::Schedule),
    ("t", Word::Task),
    ("w", Word::Worker),
    ("end", Word::End),
];

/// For each slot the place among [`WORDS`] of the word that has it, and 34 where none has.
const PLACES: [u8; 128] = [
    34, 34, 13, 14, 34, 34, 34, 34, 34, 24, 18, 34, 34, 34, 29, 34, 34, 27, 34, 16, 34, 34, 34, 34,
    34, 34, 34, 34, 34, 34, 34, 34, 34, 34, 34, 31, 34, 34, 34, 34, 12, 34, 34, 33, 34, 34, 3, 34,
    34, 34, 28, 34, 34, 34, 34, 34, 34, 2, 34, 32, 34, 34, 34, 34, 34, 34, 0, 34, 17, 34, 34, 34,
    34, 34, 21, 34, 19, 34, 34, 10, 34, 34, 25, 1, 34, 34, 20, 5, 34, 34, 23, 34, 30, 34, 34, 34,
    22, 34, 34, 34, 34, 34, 8, 34, 34, 34, 26, 34, 34, 34, 34, 34, 34, 34, 6, 34, 7, 34, 34, 34,
    15, 34, 11, 9, 34, 4, 34, 34,
];

/// The slot of bytes, by their length, the first and the last of them. No two words have the same.
fn slot_of(bytes: &[u8]) -> usize
    ensures { result ≡ slot_of bytes.now }
{
    match (bytes.first(), bytes.last()) {
        (Some(&first), Some(&last)) => {
            (2 * first as usize + 6 * last as usize + 3 * (bytes.len() % 128)) % 128
        }
        _ => 0,
    }
}

/// The word of the row at a place of a table, where the row is written so.
fn word_at(table: &[Row], place: usize, bytes: &[u8]) -> Option<Word>
    ensures { result ≡ word_at (rows_of table.now) place bytes.now }
{
    match table.get(place) {
        Some(row) if row.0.as_bytes() == bytes => Some(row.1),
        _ => None,
    }
}

/// The word that is written so. It is the one with the slot of these bytes, or none.
#[inline(always)]
pub fn word_of(bytes: &[u8]) -> Option<Word>
    ensures { result ≡ word_of bytes.now }
{
    word_at(&WORDS, PLACES[slot_of(bytes)] as usize, bytes)
}

/// Whether lines with this word belong to a section: settings, and then programs and at most one schedule, each block with its
/// own lines. Behind `exit` only the block's end may stand.
pub fn belongs(word: Word, section: Section) -> bool
    ensures { result ≡ belongs word section }
{
    match word {
        Word::Prog | Word::Schedule => matches!(section, Section::Settings | Section::Programs),
        Word::Poke
        | Word::Fill
        | Word::Call
        | Word::Spawn
        | Word::Thread
        | Word::Kill
        | Word::Handler
        | Word::Wait
        | Word::Exit => matches!(section, Section::Program),
        Word::Task | Word::Worker => matches!(section, Section::Schedule),
        Word::End => in_block(section),
        _ => matches!(section, Section::Settings),
    }
}

/// Whether a section is the block of something.
pub fn in_block(section: Section) -> bool
    ensures { result ≡ in_block section }
{
    !matches!(
        section,
        Section::Settings | Section::Programs | Section::Over
    )
}
