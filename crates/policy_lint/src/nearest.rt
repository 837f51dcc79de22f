//! Which word may have been meant.

use std::alloc::Global;
use strsim::generic_levenshtein;
use sys_abi::memory::NoMemory;

/// By how many letters what is written may differ from what was meant.
const MOST_EDITS: usize = 2;

/// The length of a word that may be meant, and more.
const LONGEST: usize = 64;

/// The nearest of these words, if it differs by two letters at most, and by fewer than it has.
pub fn nearest(
    alloc: Global,
    written: &[u8],
    words: &[&'static str],
) -> Result<Option<&'static str>, NoMemory> {
    if written.len() > LONGEST {
        return Ok(None);
    }
    let mut found = None;
    let mut least = MOST_EDITS + 1;
    for word in words {
        let edits = generic_levenshtein(alloc, written, word.as_bytes())?;
        if edits < least && edits < word.len() {
            found = Some(*word);
            least = edits;
        }
    }
    Ok(found)
}
