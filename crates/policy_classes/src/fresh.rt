//! Texts for which no atom asks.

ghost use Rattle.std.specs.Prelude.{◌≡◌, ◌++◌, [], ◌∷◌, IfOk, None, Some, nat_eq};
ghost use Rattle.std.specs.List.{flat_map, list_all, starts_with};
ghost use Rattle.std.specs.Option.{option_copied};
ghost use Rattle.hist_model.specs.Decisions.{lies_under};
ghost use Rattle.policy_classes.specs.Fresh.{agree, asked_at, candidates, is_within, lesser, start_at, with_byte, with_bytes, with_slash};
ghost use Rattle.policy_classes.specs.Groups.{accepts, fresh_of, least_of};
ghost use Rattle.policy_classes.specs.Order.{comes_before};

use crate::holding::{begins_with_dir, lies_under};
use crate::order::comes_before;
use crate::words::{Limit, is_asked};
use hist_model::text::Text;
use std::alloc::Global;
use sys_abi::memory::NoMemory;

/// Texts that calls may have and for which no atom asks.
#[derive(Clone, Copy)]
pub(crate) struct Group<'a> {
    pub(crate) limit: Limit,
    /// The texts for which atoms ask.
    pub(crate) asked: &'a [Text],
    /// The directories below which atoms ask for paths.
    pub(crate) dirs: &'a [Text],
    /// The directory just below which the texts are: below no other, but those that it is below. None: they are below no directory.
    pub(crate) at: Option<&'a Text>,
}

/// Whether both are so, or neither.
fn agree(a: bool, b: bool) -> bool
    ensures { result ≡ agree a b }
{
    if a { b } else { !b }
}

/// Whether paths just below the first directory are below the second.
#[tactic(auto, using(crate::proofs::Within::within_dir))]
fn is_within(at: Option<&Text>, dir: &Text) -> bool
    ensures { result ≡ is_within (option_copied at.entry) dir.now }
{
    match at {
        Some(at) => at.items() == dir.items() || begins_with_dir(at.items(), dir.items()),
        None => false,
    }
}

/// Whether the path is below those directories alone that `at` is within.
fn is_placed(dirs: &[Text], at: Option<&Text>, path: &[u8]) -> bool
    ensures { result ≡ list_all (λ e. agree (lies_under (Some path.now) e) (is_within (option_copied at.entry) e)) dirs.now }
{
    dirs.iter().all(|dir| agree(lies_under(Some(path), dir.items()), is_within(at, dir)))
}

/// The directory and a slash.
fn with_slash(alloc: Global, dir: &Text) -> Result<Text, NoMemory>
    ensures { IfOk result (λ text. text ≡ with_slash dir.now) }
{
    let mut text = Vec::from_slice(alloc, dir.items())?;
    text.push(b'/')?;
    Ok(Text::new(text))
}

/// The text with a byte behind.
fn with_behind(alloc: Global, text: &Text, byte: u8) -> Result<Text, NoMemory>
    ensures { IfOk result (λ t. t ≡ text.now ++ byte ∷ []) }
{
    let mut bytes = Vec::from_slice(alloc, text.items())?;
    bytes.push(byte)?;
    Ok(Text::new(bytes))
}

/// The text with a dot and a byte behind.
fn with_dot_behind(alloc: Global, text: &Text, byte: u8) -> Result<Text, NoMemory>
    ensures { IfOk result (λ t. t ≡ text.now ++ 46 ∷ byte ∷ []) }
{
    let mut bytes = Vec::from_slice(alloc, text.items())?;
    bytes.push(b'.')?;
    bytes.push(byte)?;
    Ok(Text::new(bytes))
}

/// The text with a byte in front.
fn with_in_front(alloc: Global, text: &Text, byte: u8) -> Result<Text, NoMemory>
    ensures { IfOk result (λ t. t ≡ byte ∷ text.now) }
{
    let mut bytes = Vec::new(alloc);
    bytes.push(byte)?;
    bytes.extend_from_slice(text.items())?;
    Ok(Text::new(bytes))
}

impl Group<'_> {
    /// Whether the text is one of the group.
    fn accepts(&self, text: &[u8]) -> bool
        ensures { result ≡ accepts self.now text.now }
    {
        self.limit.allows(text)
            && !is_asked(self.asked, text)
            && is_placed(self.dirs, self.at, text)
    }

    /// The lesser of two texts, if the second is one of the group.
    fn lesser(
        &self,
        alloc: Global,
        best: Option<Text>,
        text: Text,
    ) -> Result<Option<Text>, NoMemory>
        ensures { IfOk result (λ found. found ≡ lesser comes_before (accepts self.now) best text) }
    {
        if !self.accepts(text.items()) {
            return Ok(best);
        }
        let Some(best) = best else {
            return Ok(Some(text));
        };
        if comes_before(alloc, text.items(), best.items())? {
            return Ok(Some(text));
        }
        Ok(Some(best))
    }

    /// The least of the group among the texts that are made of one by a byte, and what was found before.
    fn try_byte(
        &self,
        alloc: Global,
        best: Option<Text>,
        text: &Text,
        byte: u8,
    ) -> Result<Option<Text>, NoMemory>
        ensures { IfOk result (λ found. found ≡ least_of self.now best (with_byte text.now byte)) }
    {
        let best = self.lesser(alloc, best, with_behind(alloc, text, byte)?)?;
        let best = self.lesser(alloc, best, with_dot_behind(alloc, text, byte)?)?;
        self.lesser(alloc, best, with_in_front(alloc, text, byte)?)
    }

    /// The same with each byte.
    fn try_all_bytes(
        &self,
        alloc: Global,
        best: Option<Text>,
        text: &Text,
    ) -> Result<Option<Text>, NoMemory>
        ensures { IfOk result (λ found. found ≡ least_of self.now best (with_bytes text.now)) }
    {
        let mut found = best;
        for byte in 0..256_u16 {
            found = self.try_byte(alloc, found, text, byte as u8)?;
        }
        Ok(found)
    }

    /// The same. What was found before stays where it is shorter than all of these texts.
    #[tactic(auto, using(crate::proofs::Tried::shorter_stays))]
    fn try_bytes(
        &self,
        alloc: Global,
        best: Option<Text>,
        text: &Text,
    ) -> Result<Option<Text>, NoMemory>
        ensures { IfOk result (λ found. found ≡ least_of self.now best (with_bytes text.now)) }
    {
        match best {
            Some(found) if found.items().len() <= text.items().len() => Ok(Some(found)),
            best => self.try_all_bytes(alloc, best, text),
        }
    }

    /// The shortest text there.
    fn start(&self, alloc: Global) -> Result<Text, NoMemory>
        ensures { IfOk result (λ t. t ≡ start_at (option_copied self.now.at)) }
    {
        match self.at {
            Some(dir) => with_slash(alloc, dir),
            None => Ok(Text::new(Vec::new(alloc))),
        }
    }

    /// Whether the text is there, apart from whether an atom asks for it.
    fn is_there(&self, text: &Text) -> bool
        ensures { starts_with nat_eq text.now (start_at (option_copied self.now.at)) ≡ result }
    {
        match self.at {
            Some(dir) => begins_with_dir(text.items(), dir.items()),
            None => true,
        }
    }

    /// The least of the group among the texts that are made of one, if that is there, and what was found before.
    #[tactic(auto, using(crate::proofs::Tried::source_tried, crate::proofs::Tried::source_left))]
    fn try_source(
        &self,
        alloc: Global,
        best: Option<Text>,
        text: &Text,
    ) -> Result<Option<Text>, NoMemory>
        ensures { IfOk result (λ found. found ≡ least_of self.now best (flat_map with_bytes (asked_at (option_copied self.now.at) (text.now ∷ [])))) }
    {
        if self.is_there(text) {
            return self.try_bytes(alloc, best, text);
        }
        Ok(best)
    }

    /// The least of the group among the texts that are made of those that are asked for, and what was found before.
    fn try_asked(&self, alloc: Global, best: Option<Text>) -> Result<Option<Text>, NoMemory>
        ensures { IfOk result (λ found. found ≡ least_of self.now best (flat_map with_bytes (asked_at (option_copied self.now.at) self.now.asked.now))) }
    {
        let mut found = best;
        for text in self.asked {
            found = self.try_source(alloc, found, text)?;
        }
        Ok(found)
    }

    /// The least of the group among the candidates.
    #[tactic(auto, using(crate::proofs::Tried::candidates_tried))]
    fn least(&self, alloc: Global) -> Result<Option<Text>, NoMemory>
        ensures { IfOk result (λ found. found ≡ least_of self.now None (candidates self.now.asked.now (option_copied self.now.at))) }
    {
        let start = self.start(alloc)?;
        let found = self.lesser(alloc, None, start.copied(alloc)?)?;
        let found = self.try_bytes(alloc, found, &start)?;
        let found = self.try_asked(alloc, found)?;
        Ok(found)
    }

    /// The plain text if that is of the group, and else the least that is. None: the group is empty.
    pub(crate) fn fresh(&self, alloc: Global, plain: &[u8]) -> Result<Option<Text>, NoMemory>
        ensures { IfOk result (λ found. found ≡ fresh_of self.now plain.now) }
    {
        if self.accepts(plain) {
            return Ok(Some(Text::new(Vec::from_slice(alloc, plain)?)));
        }
        self.least(alloc)
    }
}
