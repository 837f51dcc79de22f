//! Which addresses are mapped.

ghost use Rattle.std.specs.Prelude.{◌≡◌, ◌+◌, ◌<◌, ◌≤◌, ℕ, true, false, ◌∷◌, []};
ghost use Rattle.hist_model.specs.Memory.{is_mapped};
ghost use Rattle.task_groups.specs.Ranges.{AllEndLow, IsMappedFor};

use crate::page_bytes::PAGE;
use hist_model::script::MapRange;

/// How many addresses of a range there are from an address on; 0 where the range doesn't have the address.
fn rest_of(range: &MapRange, addr: u64) -> u64
    ensures within { (i : ℕ) → i < result → is_mapped (range.now ∷ []) (addr + i) ≡ true }
    ensures outside { result ≡ 0 → is_mapped (range.now ∷ []) addr ≡ false }
{
    let size = PAGE as u64 * u64::from(range.pages);
    if range.start <= addr && addr - range.start < size {
        size - (addr - range.start)
    } else {
        0
    }
}

/// How many addresses are mapped from an address on, up to the end of a range that has it; 0 where it isn't mapped.
pub fn mapped_rest(map: &[MapRange], addr: u64) -> u64
    ensures within { (i : ℕ) → i < result → is_mapped map.now (addr + i) ≡ true }
    ensures outside { result ≡ 0 → is_mapped map.now addr ≡ false }
{
    for range in map {
        let rest = rest_of(range, addr);
        if rest > 0 {
            return rest;
        }
    }
    0
}

/// The same from the `count`-th address after another one on.
fn mapped_behind(map: &[MapRange], addr: u64, count: usize) -> u64
    ensures within { (i : ℕ) → i < result → is_mapped map.now (addr + count + i) ≡ true }
    ensures outside { AllEndLow map.now → result ≡ 0 → is_mapped map.now (addr + count) ≡ false }
{
    match addr.checked_add(count as u64) {
        Some(addr) => mapped_rest(map, addr),
        None => 0,
    }
}

/// How many of the `len` addresses from one on are mapped, up to the first that isn't.
pub fn mapped_count(map: &[MapRange], addr: u64, len: usize) -> usize
    ensures bound { result ≤ len }
    ensures count { AllEndLow map.now → IsMappedFor map.now addr len result }
{
    let mut count = 0;
    while count < len {
        let more = mapped_behind(map, addr, count) as usize;
        if more == 0 {
            return count;
        }
        count += more.min(len - count);
    }
    count
}
