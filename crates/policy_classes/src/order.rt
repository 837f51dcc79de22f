//! An order of calls: fewer bytes that differ from plain values come first, and then one field after another decides.

ghost use Rattle.std.specs.Prelude.{◌≡◌, ◌++◌, [], ◌∷◌, IfOk, OnOk, map};
ghost use Rattle.policy_classes.specs.Order.{call_rank, comes_before, cost_of, descriptor_part, descriptor_rank, flags_cost, flags_part, free_part, is_at_most};
ghost use Rattle.policy_classes.specs.Order.{number_part, parts, plain_path, plain_word, rank_of, ranks_of, text_part, text_rank};

use hist_model::request::Request;
use hist_model::text::Text;
use std::alloc::Global;
use sys_abi::memory::NoMemory;

/// The plain texts: of a path, and of a type of a file system, a source or a name.
pub(crate) const PLAIN_PATH: &[u8] = b"/x";

pub(crate) const PLAIN_WORD: &[u8] = b"x";

/// A byte's rank: first letters from a to z, then the other bytes that can be printed, and then the rest.
fn rank_of(byte: u8) -> u64
    ensures { result ≡ rank_of byte }
{
    let byte = u64::from(byte);
    if 97 <= byte && byte <= 122 {
        byte - 97
    } else if 32 <= byte && byte <= 126 {
        byte
    } else {
        byte + 256
    }
}

/// Adds the ranks of the bytes.
fn push_ranks(ranks: &mut Vec<u64>, text: &[u8]) -> Result<(), NoMemory>
    ensures { OnOk result (ranks.new.items ≡ ranks.old.items ++ map rank_of text.now) }
{
    for byte in text {
        ranks.push(rank_of(*byte))?;
    }
    Ok(())
}

/// Adds a text's length and the ranks of its bytes.
fn push_text_rank(ranks: &mut Vec<u64>, text: &[u8]) -> Result<(), NoMemory>
    ensures { OnOk result (ranks.new.items ≡ ranks.old.items ++ text_rank text.now) }
{
    ranks.push(text.len() as u64)?;
    push_ranks(ranks, text)
}

/// A text's length, and the ranks of its bytes.
fn text_rank(alloc: Global, text: &[u8]) -> Result<Vec<u64>, NoMemory>
    ensures { IfOk result (λ ranks. ranks.items ≡ text_rank text.now) }
{
    let mut ranks = Vec::new(alloc);
    push_text_rank(&mut ranks, text)?;
    Ok(ranks)
}

/// Whether the first text is shorter, or as long and less in the first byte that differs.
pub(crate) fn comes_before(alloc: Global, text: &[u8], other: &[u8]) -> Result<bool, NoMemory>
    ensures { IfOk result (λ before. before ≡ comes_before text.now other.now) }
{
    let first = text_rank(alloc, text)?;
    let second = text_rank(alloc, other)?;
    Ok(first.as_slice().cmp(second.as_slice()).is_lt())
}

// ---- costs

/// What a text costs where another is the plain one.
fn text_cost(plain: &[u8], text: &[u8]) -> u64
    ensures { result ≡ (text_part plain.now text.now).cost }
{
    if text == plain {
        0
    } else {
        text.len() as u64 + 1
    }
}

/// What a number costs.
fn number_cost(number: u64) -> u64
    ensures { result ≡ (number_part number).cost }
{
    if number == 0 { 0 } else { 1 }
}

/// What flags cost: as many bytes as are set.
fn flags_cost(flags: u64) -> u64
    ensures { result ≡ flags_cost flags }
{
    let mut cost = 0;
    for bit in 0..64_u64 {
        cost += (flags >> bit) & 1;
    }
    cost
}

/// A descriptor's rank: the container's root, then 0, 1 and so on, and then -1, -2 and so on.
pub(crate) fn descriptor_rank(number: i32) -> u64
    ensures { result ≡ descriptor_rank number }
{
    let number = i64::from(number);
    if number >= 0 {
        number as u64 + 1
    } else if number == -100 {
        0
    } else {
        (-1 - number) as u64 + 2_147_483_649
    }
}

/// The rank of a call's own number.
fn call_rank(nr: i32) -> u64
    ensures { result ≡ call_rank nr }
{
    let nr = i64::from(nr);
    if nr >= 0 {
        nr as u64
    } else {
        (-1 - nr) as u64 + 2_147_483_648
    }
}

/// What the fields of a request cost.
fn cost(request: &Request) -> u128
    ensures { result ≡ cost_of (parts request.now) }
{
    match request {
        Request::Other { .. } => 0,
        Request::Sysinfo { addr } => u128::from(number_cost(*addr)),
        Request::Mknod {
            dirfd,
            path,
            mode,
            dev,
        } => {
            let path = u128::from(text_cost(PLAIN_PATH, path.items()));
            let node = u128::from(number_cost(u64::from(*mode))) + u128::from(number_cost(*dev));
            match dirfd {
                Some(number) => path + node + u128::from(number_cost(descriptor_rank(*number))),
                None => path + node,
            }
        }
        Request::Mount {
            source,
            target,
            fstype,
            options,
            flags,
            ..
        } => {
            let target = u128::from(text_cost(PLAIN_PATH, target.items()));
            let fstype = u128::from(text_cost(PLAIN_WORD, fstype.items()));
            let source = u128::from(text_cost(PLAIN_WORD, source.items()));
            let options = u128::from(text_cost(b"", options.items()));
            target + fstype + source + options + u128::from(flags_cost(*flags))
        }
        Request::SetXattr {
            path,
            name,
            value,
            flags,
        } => {
            let path = u128::from(text_cost(PLAIN_PATH, path.items()));
            let name = u128::from(text_cost(PLAIN_WORD, name.items()));
            let value = u128::from(text_cost(b"", value.items()));
            path + name + value + u128::from(flags_cost(u64::from(*flags)))
        }
        Request::OpenAt { dirfd, path, flags } => {
            let path = u128::from(text_cost(PLAIN_PATH, path.items()));
            path + u128::from(number_cost(descriptor_rank(*dirfd)))
                + u128::from(flags_cost(u64::from(*flags)))
        }
    }
}

// ---- ranks

/// Adds a text's rank where another is the plain one.
fn push_text(ranks: &mut Vec<u64>, plain: &[u8], text: &Text) -> Result<(), NoMemory>
    ensures { OnOk result (ranks.new.items ≡ ranks.old.items ++ (text_part plain.now text.now).rank) }
{
    if text.items() == plain {
        ranks.push(0)?;
        return Ok(());
    }
    ranks.push(1)?;
    push_text_rank(ranks, text.items())
}

/// The ranks of a node that is made.
fn node_ranks(
    alloc: Global,
    call: u64,
    path: &Text,
    mode: u64,
    dev: u64,
) -> Result<Vec<u64>, NoMemory>
    ensures { IfOk result (λ ranks. ranks.items
        ≡ ranks_of (free_part call ∷ text_part plain_path path.now ∷ number_part mode ∷ number_part dev ∷ [])) }
{
    let mut ranks = Vec::new(alloc);
    ranks.push(call)?;
    push_text(&mut ranks, PLAIN_PATH, path)?;
    ranks.push(mode)?;
    ranks.push(dev)?;
    Ok(ranks)
}

/// The ranks of a node that is made from a directory.
fn node_at_ranks(
    alloc: Global,
    dirfd: i32,
    path: &Text,
    mode: u64,
    dev: u64,
) -> Result<Vec<u64>, NoMemory>
    ensures { IfOk result (λ ranks. ranks.items ≡ ranks_of (free_part 6 ∷ text_part plain_path path.now ∷ number_part mode
        ∷ number_part dev ∷ descriptor_part dirfd ∷ [])) }
{
    let mut ranks = node_ranks(alloc, 6, path, mode, dev)?;
    ranks.push(descriptor_rank(dirfd))?;
    Ok(ranks)
}

/// The ranks of a mount.
fn mount_ranks(
    alloc: Global,
    target: &Text,
    fstype: &Text,
    source: &Text,
    options: &Text,
    flags: u64,
) -> Result<Vec<u64>, NoMemory>
    ensures { IfOk result (λ ranks. ranks.items ≡ ranks_of (free_part 3 ∷ text_part plain_path target.now ∷ text_part plain_word fstype.now
        ∷ text_part plain_word source.now ∷ text_part [] options.now ∷ flags_part flags ∷ [])) }
{
    let mut ranks = Vec::new(alloc);
    ranks.push(3)?;
    push_text(&mut ranks, PLAIN_PATH, target)?;
    push_text(&mut ranks, PLAIN_WORD, fstype)?;
    push_text(&mut ranks, PLAIN_WORD, source)?;
    push_text(&mut ranks, b"", options)?;
    ranks.push(flags)?;
    Ok(ranks)
}

/// The ranks of an attribute that is set.
fn setxattr_ranks(
    alloc: Global,
    path: &Text,
    name: &Text,
    value: &Text,
    flags: u64,
) -> Result<Vec<u64>, NoMemory>
    ensures { IfOk result (λ ranks. ranks.items ≡ ranks_of (free_part 4 ∷ text_part plain_path path.now ∷ text_part plain_word name.now
        ∷ text_part [] value.now ∷ flags_part flags ∷ [])) }
{
    let mut ranks = Vec::new(alloc);
    ranks.push(4)?;
    push_text(&mut ranks, PLAIN_PATH, path)?;
    push_text(&mut ranks, PLAIN_WORD, name)?;
    push_text(&mut ranks, b"", value)?;
    ranks.push(flags)?;
    Ok(ranks)
}

/// The ranks of a file that is opened.
fn openat_ranks(alloc: Global, dirfd: i32, path: &Text, flags: u64) -> Result<Vec<u64>, NoMemory>
    ensures { IfOk result (λ ranks. ranks.items ≡ ranks_of (free_part 5 ∷ text_part plain_path path.now ∷ descriptor_part dirfd ∷ flags_part flags ∷ [])) }
{
    let mut ranks = Vec::new(alloc);
    ranks.push(5)?;
    push_text(&mut ranks, PLAIN_PATH, path)?;
    ranks.push(descriptor_rank(dirfd))?;
    ranks.push(flags)?;
    Ok(ranks)
}

/// The ranks of a call without fields that are decided.
fn plain_ranks(alloc: Global, call: u64, number: u64) -> Result<Vec<u64>, NoMemory>
    ensures { IfOk result (λ ranks. ranks.items ≡ call ∷ number ∷ []) }
{
    let mut ranks = Vec::new(alloc);
    ranks.push(call)?;
    ranks.push(number)?;
    Ok(ranks)
}

/// The ranks of a request's fields, one behind the other.
fn ranks(alloc: Global, request: &Request) -> Result<Vec<u64>, NoMemory>
    ensures { IfOk result (λ ranks. ranks.items ≡ ranks_of (parts request.now)) }
{
    match request {
        Request::Other { nr } => plain_ranks(alloc, 0, call_rank(*nr)),
        Request::Sysinfo { addr } => plain_ranks(alloc, 1, *addr),
        Request::Mknod {
            dirfd,
            path,
            mode,
            dev,
        } => match dirfd {
            Some(number) => node_at_ranks(alloc, *number, path, u64::from(*mode), *dev),
            None => node_ranks(alloc, 2, path, u64::from(*mode), *dev),
        },
        Request::Mount {
            source,
            target,
            fstype,
            options,
            flags,
            ..
        } => mount_ranks(alloc, target, fstype, source, options, *flags),
        Request::SetXattr {
            path,
            name,
            value,
            flags,
        } => setxattr_ranks(alloc, path, name, value, u64::from(*flags)),
        Request::OpenAt { dirfd, path, flags } => openat_ranks(
            alloc,
            *dirfd,
            path,
            u64::from(*flags),
        ),
    }
}

/// Whether the first of two calls doesn't come behind the second.
pub(crate) fn is_at_most(
    alloc: Global,
    request: &Request,
    other: &Request,
) -> Result<bool, NoMemory>
    ensures { IfOk result (λ at_most. at_most ≡ is_at_most request.now other.now) }
{
    let first = cost(request);
    let second = cost(other);
    if first < second {
        return Ok(true);
    }
    if second < first {
        return Ok(false);
    }
    let first = ranks(alloc, request)?;
    let second = ranks(alloc, other)?;
    Ok(first.as_slice().cmp(second.as_slice()).is_le())
}
