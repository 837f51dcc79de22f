//! One list of claims, which is a list of rules.

ghost use Rattle.std.specs.Prelude.{◌≡◌, IfOk, drop};
ghost use Rattle.policy_reader.specs.Readings.{Gives};
ghost use Rattle.policy_claims.specs.Claims.{claim_rules, in_list, list_of, refused_in};
ghost use Rattle.serde_json.specs.View.{view};

use hist_model::policy::{Profile, Rule};
use hist_model::text::{Sequence, Text};
use policy_reader::{Format, PolicyError, Version, read_rules};
use serde_json::Value;
use std::alloc::Global;
use sys_abi::memory::{NoMemory, OrNoMemory};

/// How claims are read: with the conditions of every profile, and without a number of times.
const FORMAT: Format = Format {
    version: Version::First,
    profile: Profile::Lxd,
};

/// What stands of a place behind the five letters of `rules`.
fn behind_rules(place: &[u8]) -> &[u8]
    ensures { result.now ≡ drop 5 place.now }
{
    if place.len() < 5 {
        return b"";
    }
    &place[5..]
}

/// The place, with the list's name where the reader of rules has `rules`.
fn in_list(alloc: Global, list: &str, place: &Text) -> Result<Text, NoMemory>
    ensures { IfOk result (λ path. path ≡ in_list list.now place.now) }
{
    let mut path = Vec::from_slice(alloc, list.as_bytes())?;
    path.extend_from_slice(behind_rules(place.items()))?;
    Ok(Text::new(path))
}

/// The refusal of a rule as one of a claim in the list.
fn refused_in(alloc: Global, list: &str, error: PolicyError) -> Result<PolicyError, NoMemory>
    ensures { IfOk result (λ refusal. refusal ≡ refused_in list.now error) }
{
    match error {
        PolicyError::BadKey { path } => {
            let path = in_list(alloc, list, &path)?;
            Ok(PolicyError::BadKey { path })
        }
        PolicyError::BadValue { path } => {
            let path = in_list(alloc, list, &path)?;
            Ok(PolicyError::BadValue { path })
        }
        other => Ok(other),
    }
}

/// The rules of an array, as claims have them.
fn read_as_rules(alloc: Global, value: &Value) -> Result<Sequence<Rule>, OrNoMemory<PolicyError>>
    ensures { Gives result (claim_rules (view value.now)) }
{
    read_rules(alloc, FORMAT, value)
}

/// The claims of a list of this name.
pub(crate) fn read_list(
    alloc: Global,
    list: &str,
    value: &Value,
) -> Result<Sequence<Rule>, OrNoMemory<PolicyError>>
    ensures { Gives result (list_of list.now (view value.now)) }
{
    match read_as_rules(alloc, value) {
        Ok(claims) => Ok(claims),
        Err(OrNoMemory::Refused(error)) => {
            let refusal = refused_in(alloc, list, error)?;
            Err(OrNoMemory::Refused(refusal))
        }
        Err(OrNoMemory::NoMemory) => Err(OrNoMemory::NoMemory),
    }
}
