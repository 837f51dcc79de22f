//! The lists of types of file systems as LXD takes them: what stands between commas, with its spaces.

ghost use Rattle.std.specs.Prelude.{◌≡◌, ◌==◌, ◌&&◌, map, IfOk, option_map};
ghost use Rattle.std.specs.List.{list_any, slice_split};
ghost use Rattle.hist_model.specs.RuleParts.{is_filled};
ghost use Rattle.policy_reader.specs.LxdLists.{is_led, is_one_pair, lxd_items, shares, unless_shared};
ghost use Rattle.policy_reader.specs.NameSets.{holds, HoldsNames};

use crate::names::Names;
use crate::texts::cut_at;
use hist_model::text::Text;
use plain_words::is_one_of;
use std::alloc::Global;
use sys_abi::memory::NoMemory;

/// Whether the list is empty, or begins with a comma.
fn is_led(text: &[u8]) -> bool
    ensures { result ≡ is_led text.now }
{
    text.is_empty() || text.starts_with(b",")
}

/// What stands between commas.
fn pieces_of(alloc: Global, text: &[u8]) -> Result<Vec<&[u8]>, NoMemory>
    ensures { IfOk result (λ pieces. map (λ piece. piece.now) pieces.items ≡ slice_split (λ b. b == 44) text.now) }
{
    let mut pieces = Vec::new(alloc);
    let mut rest = Some(text);
    while let Some(left) = rest {
        let (front, more) = cut_at(left, b',');
        pieces.push(front)?;
        rest = more;
    }
    Ok(pieces)
}

/// The items of a list, from the last one on.
pub(crate) fn lxd_items(alloc: Global, text: &[u8]) -> Result<Vec<&[u8]>, NoMemory>
    ensures { IfOk result (λ items. map (λ item. item.now) items.items ≡ lxd_items text.now) }
{
    let mut items = Vec::new(alloc);
    if is_led(text) {
        return Ok(items);
    }
    let mut pieces = pieces_of(alloc, text)?;
    while let Some(piece) = pieces.pop() {
        items.push(piece)?;
    }
    Ok(items)
}

/// Whether the program's name has no `=`, so that its item has one alone.
pub(crate) fn is_one_pair(program: &[u8]) -> bool
    ensures { result ≡ is_one_pair program.now }
{
    !is_one_of(program, b'=')
}

/// The names of these file systems.
fn names_of(alloc: Global, allowed: &[Text]) -> Result<Names, NoMemory>
    ensures { IfOk result (λ names. HoldsNames (λ name. name) names allowed.now) }
{
    let mut names = Names::new(alloc);
    for name in allowed {
        names.add(alloc, name.items())?;
    }
    Ok(names)
}

/// Whether one of the types that a program serves has one of these names.
fn is_one_held(names: &Names, pairs: &[(Text, Text)]) -> bool
    ensures { result ≡ list_any (λ pair. is_filled pair.1 && holds names.now pair.0) pairs.now }
{
    pairs.iter().any(|pair| !pair.1.items().is_empty() && names.holds(pair.0.items()))
}

/// Whether a type that a program serves stands in the other list as well.
fn shares(alloc: Global, allowed: &[Text], pairs: &[(Text, Text)]) -> Result<bool, NoMemory>
    ensures { IfOk result (λ found. found ≡ shares allowed.now pairs.now) }
{
    let names = names_of(alloc, allowed)?;
    Ok(is_one_held(&names, pairs))
}

/// The types with programs, where mounts are on and the two lists share none. Where mounts are off the lists aren't compared.
pub(crate) fn unless_shared(
    alloc: Global,
    mount: bool,
    allowed: &[Text],
    pairs: Vec<(Text, Text)>,
) -> Result<Option<Vec<(Text, Text)>>, NoMemory>
    ensures { IfOk result (λ found. option_map (λ v. v.items) found ≡ unless_shared mount allowed.now pairs.items) }
{
    if mount && shares(alloc, allowed, pairs.as_slice())? {
        Ok(None)
    } else {
        Ok(Some(pairs))
    }
}
