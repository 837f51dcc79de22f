//! The words that begin the lines of a script, those of a filter's instructions among them.

ghost use Rattle.std.specs.Prelude.{◌≡◌};
ghost use Rattle.bpf_filter.specs.Words.{form_in, forms_of, instructions, is_among, is_script_word, texts_of};

/// An instruction's word, its code, and how many numbers stand behind the word: none, K, or K, JT and JF.
type Form = (&'static str, u16, usize);

/// The instructions of bpf(4) that a filter may have.
const INSTRUCTIONS: [Form; 16] = [
    ("ld", 0x20, 1),
    ("ldi", 0x00, 1),
    ("add", 0x04, 1),
    ("sub", 0x14, 1),
    ("or", 0x44, 1),
    ("and", 0x54, 1),
    ("xor", 0xa4, 1),
    ("lsh", 0x64, 1),
    ("rsh", 0x74, 1),
    ("neg", 0x84, 0),
    ("ja", 0x05, 1),
    ("jeq", 0x15, 3),
    ("jgt", 0x25, 3),
    ("jge", 0x35, 3),
    ("jset", 0x45, 3),
    ("ret", 0x06, 1),
];

/// The words of settings, of programs and of the schedule, and the one that ends a block.
const OTHERS: [&'static str; 34] = [
    "pidmax", "pidbase", "firstid", "rlimit", "dir", "reg", "fifo", "sock", "link", "chr", "blk",
    "attr", "root", "broker", "map", "cgroup", "figures", "notify", "filter", "killable", "prog",
    "poke", "fill", "call", "spawn", "thread", "kill", "handler", "wait", "exit", "schedule", "t",
    "w", "end",
];

/// The code beside a word of a table, and how many numbers stand behind the word.
fn form_of(table: &[Form], word: &[u8]) -> Option<(u16, usize)>
    ensures { result ≡ form_in (forms_of table.now) word.now }
{
    let form = table.iter().find(|form| form.0.as_bytes() == word)?;
    Some((form.1, form.2))
}

/// Whether a word is one of these.
fn is_among(texts: &[&'static str], word: &[u8]) -> bool
    ensures { result ≡ is_among (texts_of texts.now) word.now }
{
    texts.iter().any(|text| text.as_bytes() == word)
}

/// The code of the instruction with this word, and how many numbers stand behind the word.
pub(crate) fn instruction(word: &[u8]) -> Option<(u16, usize)>
    ensures { result ≡ form_in instructions word.now }
{
    form_of(&INSTRUCTIONS, word)
}

/// Whether a word begins a line of some part of a script: a setting, an instruction of a filter or of a program, or a line of
/// the schedule.
pub fn is_script_word(word: &[u8]) -> bool
    ensures { result ≡ is_script_word word.now }
{
    instruction(word).is_some() || is_among(&OTHERS, word)
}
