//! Values of a field: those that atoms ask for, and the least of those that no atom tells apart.

ghost use Rattle.std.specs.Prelude.{◌≡◌, ◌++◌, [], ◌∷◌, false, IfOk, IfSome, None, OnOk, Some, bytes_eq};
ghost use Rattle.std.specs.List.{filter, filter_map, flat_map, list_any};
ghost use Rattle.std.specs.Option.{option_copied, option_to_list};
ghost use Rattle.std.specs.Ordering.{int_eq};
ghost use Rattle.policy_classes.specs.Allowed.{is_allowed};
ghost use Rattle.policy_classes.specs.Asked.{is_descriptor_number};
ghost use Rattle.policy_classes.specs.Chosen.{added, comes_first, descriptor_asked, descriptor_values, descriptors_asked, dir_asked};
ghost use Rattle.policy_classes.specs.Chosen.{dirs_asked, field_texts, fresh_at, fresh_descriptor, is_fresh_descriptor, next_descriptor, once_behind};
ghost use Rattle.policy_classes.specs.Chosen.{text_asked, text_values, texts_asked};
ghost use Rattle.policy_classes.specs.Fresh.{lesser};
ghost use Rattle.policy_classes.specs.Pending.{atoms_seen};

use crate::atoms::{Atom, Field};
use crate::fresh::Group;
use crate::order::descriptor_rank;
use crate::words::{Limit, is_asked, limit_of, plain_of};
use hist_model::text::Text;
use std::alloc::Global;
use sys_abi::memory::NoMemory;
use sys_abi::wire::AT_FDCWD;

// ---- texts

/// The text for which an atom asks in a field.
pub(crate) fn text_asked(field: Field, atom: &Atom) -> Option<&Text>
    ensures { option_copied result ≡ text_asked field atom.now }
{
    match (field, atom) {
        (Field::Path, Atom::Path(text)) => Some(text),
        (Field::Fstype, Atom::Fstype(text)) => Some(text),
        (Field::Source, Atom::Source(text)) => Some(text),
        (Field::Name, Atom::Name(text)) => Some(text),
        (Field::Value, Atom::Value(text)) => Some(text),
        _ => None,
    }
}

/// The directory below which an atom asks for a path in the field.
fn dir_asked(field: Field, atom: &Atom) -> Option<&Text>
    ensures { option_copied result ≡ dir_asked field atom.now }
{
    match (field, atom) {
        (Field::Path, Atom::Under(dir)) => Some(dir),
        _ => None,
    }
}

/// Adds the text, unless it is there.
fn push_once(alloc: Global, texts: &mut Vec<Text>, text: &Text) -> Result<(), NoMemory>
    ensures { OnOk result (texts.new.items ≡ added bytes_eq texts.old.items text.now) }
{
    if is_asked(texts.as_slice(), text.items()) {
        return Ok(());
    }
    texts.push(text.copied(alloc)?)?;
    Ok(())
}

/// Adds the text for which the atom asks, unless it is there.
fn push_text(
    alloc: Global,
    texts: &mut Vec<Text>,
    field: Field,
    atom: &Atom,
) -> Result<(), NoMemory>
    ensures { OnOk result (texts.new.items ≡ once_behind bytes_eq texts.old.items (filter_map (text_asked field) (atom.now ∷ []))) }
{
    if let Some(text) = text_asked(field, atom) {
        push_once(alloc, texts, text)?;
    }
    Ok(())
}

/// The texts for which atoms ask in a field, each once.
fn texts_asked(alloc: Global, field: Field, atoms: &[&Atom]) -> Result<Vec<Text>, NoMemory>
    ensures { IfOk result (λ texts. texts.items ≡ texts_asked field (atoms_seen atoms.now)) }
{
    let mut texts = Vec::new(alloc);
    for atom in atoms {
        push_text(alloc, &mut texts, field, *atom)?;
    }
    Ok(texts)
}

/// Adds the directory below which the atom asks for a path, unless it is there.
fn push_dir(alloc: Global, dirs: &mut Vec<Text>, field: Field, atom: &Atom) -> Result<(), NoMemory>
    ensures { OnOk result (dirs.new.items ≡ once_behind bytes_eq dirs.old.items (filter_map (dir_asked field) (atom.now ∷ []))) }
{
    if let Some(dir) = dir_asked(field, atom) {
        push_once(alloc, dirs, dir)?;
    }
    Ok(())
}

/// The directories below which atoms ask for paths, each once.
fn dirs_asked(alloc: Global, field: Field, atoms: &[&Atom]) -> Result<Vec<Text>, NoMemory>
    ensures { IfOk result (λ dirs. dirs.items ≡ dirs_asked field (atoms_seen atoms.now)) }
{
    let mut dirs = Vec::new(alloc);
    for atom in atoms {
        push_dir(alloc, &mut dirs, field, *atom)?;
    }
    Ok(dirs)
}

/// Adds the text, if calls may have it.
fn push_allowed(
    alloc: Global,
    texts: &mut Vec<Text>,
    limit: Limit,
    text: &Text,
) -> Result<(), NoMemory>
    ensures { OnOk result (texts.new.items ≡ texts.old.items ++ filter (is_allowed limit) (text.now ∷ [])) }
{
    if limit.allows(text.items()) {
        texts.push(text.copied(alloc)?)?;
    }
    Ok(())
}

/// Those of the texts that calls may have.
fn allowed_texts(alloc: Global, texts: &[Text], limit: Limit) -> Result<Vec<Text>, NoMemory>
    ensures { IfOk result (λ allowed. allowed.items ≡ filter (is_allowed limit) texts.now) }
{
    let mut allowed = Vec::new(alloc);
    for text in texts {
        push_allowed(alloc, &mut allowed, limit, text)?;
    }
    Ok(allowed)
}

/// Adds the least text of the group, if it has one.
fn push_fresh(
    alloc: Global,
    texts: &mut Vec<Text>,
    group: Group<'_>,
    plain: &[u8],
) -> Result<(), NoMemory>
    ensures { OnOk result (texts.new.items
        ≡ texts.old.items ++ fresh_at group.entry.limit plain.now group.entry.asked.now group.entry.dirs.now (option_copied group.entry.at)) }
{
    if let Some(text) = group.fresh(alloc, plain)? {
        texts.push(text)?;
    }
    Ok(())
}

/// Adds the least text just below each of the directories, if there is one.
fn push_below<'a>(
    alloc: Global,
    texts: &mut Vec<Text>,
    limit: Limit,
    plain: &[u8],
    asked: &'a [Text],
    dirs: &'a [Text],
) -> Result<(), NoMemory>
    ensures { OnOk result (texts.new.items
        ≡ texts.old.items ++ flat_map (λ d. fresh_at limit plain.now asked.now dirs.now (Some d)) dirs.now) }
{
    for dir in dirs {
        let group = Group {
            limit,
            asked,
            dirs,
            at: Some(dir),
        };
        push_fresh(alloc, texts, group, plain)?;
    }
    Ok(())
}

/// Those of the texts that calls may have, the least text below no directory for which no atom asks, and the least just below each
/// of these directories.
fn text_values<'a>(
    alloc: Global,
    limit: Limit,
    plain: &[u8],
    asked: &'a [Text],
    dirs: &'a [Text],
) -> Result<Vec<Text>, NoMemory>
    ensures { IfOk result (λ texts. texts.items ≡ text_values limit plain.now asked.now dirs.now) }
{
    let mut texts = allowed_texts(alloc, asked, limit)?;
    let group = Group {
        limit,
        asked,
        dirs,
        at: None,
    };
    push_fresh(alloc, &mut texts, group, plain)?;
    push_below(alloc, &mut texts, limit, plain, asked, dirs)?;
    Ok(texts)
}

/// The values of a field that is a text.
pub(crate) fn field_texts(
    alloc: Global,
    field: Field,
    atoms: &[&Atom],
) -> Result<Vec<Text>, NoMemory>
    ensures { IfOk result (λ texts. texts.items ≡ field_texts field (atoms_seen atoms.now)) }
{
    let asked = texts_asked(alloc, field, atoms)?;
    let dirs = dirs_asked(alloc, field, atoms)?;
    text_values(
        alloc,
        limit_of(field),
        plain_of(field),
        asked.as_slice(),
        dirs.as_slice(),
    )
}

// ---- descriptors

/// The descriptor for which an atom asks.
fn descriptor_asked(atom: &Atom) -> Option<i32>
    ensures { result ≡ descriptor_asked atom.now }
{
    match atom {
        Atom::Dirfd(number) => Some(*number),
        _ => None,
    }
}

/// Whether the descriptor is one of these.
fn is_among(numbers: &[i32], number: i32) -> bool
    ensures { result ≡ list_any (λ n. int_eq number n) numbers.now }
{
    numbers.iter().any(|n| number == *n)
}

/// Adds the descriptor, unless it is there.
fn push_number_once(numbers: &mut Vec<i32>, number: i32) -> Result<(), NoMemory>
    ensures { OnOk result (numbers.new.items ≡ added int_eq numbers.old.items number) }
{
    if is_among(numbers.as_slice(), number) {
        return Ok(());
    }
    numbers.push(number)?;
    Ok(())
}

/// Adds the descriptor for which the atom asks, unless it is there.
fn push_descriptor(numbers: &mut Vec<i32>, atom: &Atom) -> Result<(), NoMemory>
    ensures { OnOk result (numbers.new.items ≡ once_behind int_eq numbers.old.items (filter_map descriptor_asked (atom.now ∷ []))) }
{
    if let Some(number) = descriptor_asked(atom) {
        push_number_once(numbers, number)?;
    }
    Ok(())
}

/// The descriptors for which atoms ask, each once.
fn descriptors_asked(alloc: Global, atoms: &[&Atom]) -> Result<Vec<i32>, NoMemory>
    ensures { IfOk result (λ numbers. numbers.items ≡ descriptors_asked (atoms_seen atoms.now)) }
{
    let mut numbers = Vec::new(alloc);
    for atom in atoms {
        push_descriptor(&mut numbers, *atom)?;
    }
    Ok(numbers)
}

/// Whether no atom asks for the descriptor.
fn is_fresh(asked: &[i32], number: i32) -> bool
    ensures { result ≡ is_fresh_descriptor asked.now number }
{
    !is_among(asked, number)
}

/// The lesser of two descriptors, if no atom asks for the second.
fn lesser_number(asked: &[i32], best: Option<i32>, number: i32) -> Option<i32>
    ensures { result ≡ lesser comes_first (is_fresh_descriptor asked.now) best number }
{
    if !is_fresh(asked, number) {
        return best;
    }
    match best {
        Some(best) if descriptor_rank(number) >= descriptor_rank(best) => Some(best),
        _ => Some(number),
    }
}

/// The next descriptor of the same sign, if there is one.
fn next_number(number: i32) -> Option<i32>
    ensures next { IfSome result (λ next. next ≡ next_descriptor number) }
    ensures none { result ≡ None → is_descriptor_number (next_descriptor number) ≡ false }
{
    if number >= 0 {
        number.checked_add(1)
    } else {
        number.checked_sub(1)
    }
}

/// The lesser of a descriptor and the one that is next to another, if no atom asks for that.
fn lesser_next(asked: &[i32], best: Option<i32>, number: i32) -> Option<i32>
    ensures { result ≡ lesser comes_first (is_fresh_descriptor asked.now) best (next_descriptor number) }
{
    match next_number(number) {
        Some(next) => lesser_number(asked, best, next),
        None => best,
    }
}

/// The least descriptor for which no atom asks.
fn fresh_descriptor(asked: &[i32]) -> Option<i32>
    ensures { result ≡ fresh_descriptor asked.now }
{
    let mut best = lesser_number(asked, None, AT_FDCWD);
    best = lesser_number(asked, best, 0);
    best = lesser_number(asked, best, -1);
    for number in asked {
        best = lesser_next(asked, best, *number);
    }
    best
}

/// Adds the descriptor, which calls may have.
fn push_number(numbers: &mut Vec<i32>, number: i32) -> Result<(), NoMemory>
    ensures { OnOk result (numbers.new.items ≡ numbers.old.items ++ filter is_descriptor_number (number ∷ [])) }
{
    numbers.push(number)?;
    Ok(())
}

/// Those that calls may have: all of them.
fn allowed_numbers(alloc: Global, numbers: &[i32]) -> Result<Vec<i32>, NoMemory>
    ensures { IfOk result (λ allowed. allowed.items ≡ filter is_descriptor_number numbers.now) }
{
    let mut allowed = Vec::new(alloc);
    for number in numbers {
        push_number(&mut allowed, *number)?;
    }
    Ok(allowed)
}

/// The descriptors that atoms tell apart.
pub(crate) fn descriptor_values(alloc: Global, atoms: &[&Atom]) -> Result<Vec<i32>, NoMemory>
    ensures { IfOk result (λ numbers. numbers.items ≡ descriptor_values (atoms_seen atoms.now)) }
{
    let asked = descriptors_asked(alloc, atoms)?;
    let mut numbers = allowed_numbers(alloc, asked.as_slice())?;
    if let Some(number) = fresh_descriptor(asked.as_slice()) {
        numbers.push(number)?;
    }
    Ok(numbers)
}
