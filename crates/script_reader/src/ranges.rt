//! The pages that are mapped, and the descriptors that are open in the broker.

ghost use Rattle.std.specs.Prelude.{◌≡◌, ◌≤◌, ◌<◌, ◌+◌, ◌^◌, nat_lt};
ghost use Rattle.script_reader.specs.Faults.{Judges, too_large_if};
ghost use Rattle.hist_model.specs.Ranges as mapped;
ghost use Rattle.script_reader.specs.Ranges as definitions;

use crate::error::Fault;
use crate::fault::{full, too_large_if, wrong_if};
use hist_model::script::MapRange;
use lex_core::Reason;

/// What is mapped where no line maps pages.
const DEFAULT: &[MapRange] = &[MapRange {
    start: 0x10000,
    pages: 16,
}];

/// The address after a range.
fn end_of(range: MapRange) -> u128
    ensures { result ≡ mapped.end_of range }
{
    range.start as u128 + 4096 * (range.pages as u128)
}

/// Whether one of two ranges ends before the other begins.
fn are_apart(range: MapRange, other: MapRange) -> bool
    ensures { result ≡ mapped.are_apart range other }
{
    end_of(range) <= other.start as u128 || end_of(other) <= range.start as u128
}

/// Whether a range is apart from each of these.
fn is_apart(ranges: &[MapRange], range: MapRange) -> bool
    ensures { result ≡ mapped.is_apart ranges.now range }
{
    ranges.iter().all(|other| are_apart(range, *other))
}

/// How many pages the ranges have.
fn pages_of(ranges: &[MapRange]) -> u128
    ensures pages { result ≡ mapped.pages_of ranges.now }
    ensures small { result < 2 ^ 127 }
{
    let mut pages = 0;
    for range in ranges {
        pages += range.pages as u128;
    }
    pages
}

/// Refuses a range that ends above 2^47 or isn't apart from those above (`OutOfRange`), and one with which more than 64 pages
/// are mapped.
pub fn refuse_range(ranges: &[MapRange], range: MapRange) -> Result<(), Fault>
    ensures { Judges (definitions.map_fault ranges.now range) result }
{
    wrong_if(
        end_of(range) > 1 << 47 || !is_apart(ranges, range),
        Reason::OutOfRange,
    )?;
    refuse_pages(pages_of(ranges), range.pages)
}

/// Refuses more than 64 pages.
fn refuse_pages(pages: u128, more: u32) -> Result<(), Fault>
    requires { pages < 2 ^ 127 }
    ensures { Judges (too_large_if (nat_lt 64 (pages + more))) result }
{
    too_large_if(pages + more as u128 > 64)
}

/// The ranges that are mapped, where lines map these.
pub fn in_force(ranges: &[MapRange]) -> &[MapRange]
    ensures { result.now ≡ definitions.in_force ranges.now }
{
    if ranges.is_empty() { DEFAULT } else { ranges }
}

/// How many of the bytes from one address up to another lie in a range.
fn bytes_within(from: u128, to: u128, range: MapRange) -> u128
    ensures { result ≡ mapped.bytes_within from to range }
{
    to.min(end_of(range))
        .saturating_sub(from.max(range.start as u128))
}

/// How many of the bytes from one address up to another lie in the ranges.
fn bytes_mapped(ranges: &[MapRange], from: u128, to: u128) -> u128
    requires { to ≤ from + 2 ^ 63 }
    ensures { result ≡ mapped.bytes_mapped ranges.now from to }
{
    let mut bytes = 0;
    for range in ranges {
        bytes += bytes_within(from, to, *range);
    }
    bytes
}

/// Whether each of so many bytes from an address on is mapped, where lines map these ranges.
pub fn are_mapped(ranges: &[MapRange], from: u64, count: usize) -> bool
    requires { count < 2 ^ 63 }
    ensures { result ≡ mapped.are_mapped (definitions.in_force ranges.now) from count }
{
    let from = from as u128;
    let count = count as u128;
    bytes_mapped(in_force(ranges), from, from + count) == count
}

/// Refuses a descriptor that is stated again, and more than 64 of them.
pub fn refuse_broker(broker: &[u32], descriptor: u32) -> Result<(), Fault>
    ensures { Judges (definitions.broker_fault broker.now descriptor) result }
{
    wrong_if(broker.contains(&descriptor), Reason::Duplicate)?;
    full(64, broker.len())
}
