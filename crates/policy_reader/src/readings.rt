//! What is read of a value, or the refusal of its place.

ghost use Rattle.std.specs.Prelude.{◌≡◌, ◌++◌, IfOk, Err};
ghost use Rattle.hist_model.specs.ReportWords.{quoted};
ghost use Rattle.policy_reader.specs.Readings.{Gives, good, config_place, rule_place};
ghost use Rattle.policy_reader.specs.declared.error.PolicyError.TheVariants.{BadKey, BadValue};

use crate::error::PolicyError;
use hist_model::text::Text;
use plain_words::push_quoted;
use std::alloc::Global;
use sys_abi::memory::{NoMemory, OrNoMemory};

/// What is read of a value, or the first refusal.
pub(crate) type Reading<T> = Result<T, OrNoMemory<PolicyError>>;

/// The path of a key of the configuration.
fn config_place(alloc: Global, key: &str) -> Result<Text, NoMemory>
    ensures { IfOk result (λ path. path ≡ config_place key.now) }
{
    let mut path = Vec::from_slice(alloc, b"config.")?;
    push_quoted(&mut path, key.as_bytes())?;
    Ok(Text::new(path))
}

/// The path of what stands in a rule; the rest leads to it from there.
fn rule_place(alloc: Global, rule: usize, rest: &str) -> Result<Text, NoMemory>
    ensures { IfOk result (λ path. path ≡ rule_place rule rest.now) }
{
    let path = format!(in alloc; "rules[{rule}]{rest}")?;
    Ok(Text::new(path.into_bytes()))
}

/// The refusal of a value at a place whose path is this text.
pub(crate) fn bad_value<T>(alloc: Global, path: &str) -> Reading<T>
    ensures { Gives result (Err (BadValue path.now)) }
{
    let path = Text::new(Vec::from_slice(alloc, path.as_bytes())?);
    Err(OrNoMemory::Refused(PolicyError::BadValue { path }))
}

/// The refusal of a key of the top object that isn't known.
pub(crate) fn unknown_at_top<T>(alloc: Global, key: &str) -> Reading<T>
    ensures { Gives result (Err (BadKey (quoted key.now))) }
{
    let mut path = Vec::new(alloc);
    push_quoted(&mut path, key.as_bytes())?;
    let path = Text::new(path);
    Err(OrNoMemory::Refused(PolicyError::BadKey { path }))
}

/// The refusal of a key of the configuration that isn't known.
pub(crate) fn unknown_in_config<T>(alloc: Global, key: &str) -> Reading<T>
    ensures { Gives result (Err (BadKey (config_place key.now))) }
{
    let path = config_place(alloc, key)?;
    Err(OrNoMemory::Refused(PolicyError::BadKey { path }))
}

/// What stands at a key of the configuration, or the refusal of its value.
pub(crate) fn good_in_config<T>(alloc: Global, key: &str, found: Option<T>) -> Reading<T>
    ensures { Gives result (good (config_place key.now) found) }
{
    match found {
        Some(value) => Ok(value),
        None => {
            let path = config_place(alloc, key)?;
            Err(OrNoMemory::Refused(PolicyError::BadValue { path }))
        }
    }
}

/// The refusal of a key in a rule that isn't known; the front leads to it.
pub(crate) fn unknown_in_rule<T>(alloc: Global, rule: usize, front: &str, key: &str) -> Reading<T>
    ensures { Gives result (Err (BadKey (rule_place rule (front.now ++ quoted key.now)))) }
{
    let mut path = format!(in alloc; "rules[{rule}]{front}")?.into_bytes();
    push_quoted(&mut path, key.as_bytes())?;
    let path = Text::new(path);
    Err(OrNoMemory::Refused(PolicyError::BadKey { path }))
}

/// The refusal of a value in a rule.
pub(crate) fn bad_in_rule<T>(alloc: Global, rule: usize, rest: &str) -> Reading<T>
    ensures { Gives result (Err (BadValue (rule_place rule rest.now))) }
{
    let path = rule_place(alloc, rule, rest)?;
    Err(OrNoMemory::Refused(PolicyError::BadValue { path }))
}

/// What stands in a rule, or the refusal of its value.
pub(crate) fn good_in_rule<T>(
    alloc: Global,
    rule: usize,
    rest: &str,
    found: Option<T>,
) -> Reading<T>
    ensures { Gives result (good (rule_place rule rest.now) found) }
{
    match found {
        Some(value) => Ok(value),
        None => bad_in_rule(alloc, rule, rest),
    }
}
