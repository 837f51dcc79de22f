//! Texts that are made of bytes.

use hist_model::text::Text;
use std::alloc::Global;
use sys_abi::memory::NoMemory;

/// The text of these bytes.
pub fn text(alloc: Global, bytes: &[u8]) -> Result<Text, NoMemory> {
    Ok(Text::new(bytes.to_vec(alloc)?))
}
