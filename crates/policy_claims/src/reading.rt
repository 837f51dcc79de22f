//! The claims of a file.

ghost use Rattle.std.specs.Prelude.{◌≡◌, ◌≤◌, ◌^◌, Err, Some, codes, length};
ghost use Rattle.hist_model.specs.ReportWords.{quoted};
ghost use Rattle.policy_claims.specs.Claims.{claim_at, claim_keys, claims, claims_in, claims_member, claims_of, no_claims};
ghost use Rattle.policy_reader.specs.Readings.{Gives, named, top_place};
ghost use Rattle.policy_reader.specs.declared.error.PolicyError.TheVariants.{BadKey, BadValue};
ghost use Rattle.serde_json.specs.View.{members_view, view};

use crate::claims::{Claims, Sense};
use crate::lists::read_list;
use hist_model::text::{Sequence, Text};
use plain_words::push_quoted;
use policy_reader::PolicyError;
use policy_reader::texts::named;
use serde_json::{Map, Value};
use std::alloc::Global;
use sys_abi::memory::OrNoMemory;

/// What is read of a value, or the first refusal.
type Reading<T> = Result<T, OrNoMemory<PolicyError>>;

/// The keys of the top object.
const KEYS: [(&'static str, Sense); 2] = [("expect", Sense::Expect), ("never", Sense::Never)];

/// What the claims of the list of this name say.
fn sense_named(name: &str) -> Option<Sense>
    ensures { result ≡ named claim_keys name.now }
{
    named(&KEYS, name.as_bytes())
}

/// The refusal of a key that isn't known.
fn unknown_key<T>(alloc: Global, key: &str) -> Reading<T>
    ensures { Gives result (Err (BadKey (quoted key.now))) }
{
    let mut path = Vec::new(alloc);
    push_quoted(&mut path, key.as_bytes())?;
    let path = Text::new(path);
    Err(OrNoMemory::Refused(PolicyError::BadKey { path }))
}

/// The refusal of a value that is no object.
fn no_object<T>(alloc: Global) -> Reading<T>
    ensures { Gives result (Err (BadValue top_place)) }
{
    let path = Text::new(Vec::from_slice(alloc, b"(top)")?);
    Err(OrNoMemory::Refused(PolicyError::BadValue { path }))
}

impl Claims {
    /// No claim.
    fn nothing(alloc: Global) -> Claims
        ensures { result ≡ no_claims }
    {
        Claims {
            expect: Sequence::new(Vec::new(alloc)),
            never: Sequence::new(Vec::new(alloc)),
        }
    }

    /// Adds what a member of this sense says; without one its key isn't known.
    fn read_key(
        mut self,
        alloc: Global,
        sense: Option<Sense>,
        name: &str,
        value: &Value,
    ) -> Reading<Claims>
        ensures { Gives result (claim_at sense name.now (view value.now) self) }
    {
        match sense {
            Some(Sense::Expect) => self.expect = read_list(alloc, "expect", value)?,
            Some(Sense::Never) => self.never = read_list(alloc, "never", value)?,
            None => return unknown_key(alloc, name),
        }
        Ok(self)
    }

    /// Adds what one member of the top object says.
    fn read_member(self, alloc: Global, name: &str, value: &Value) -> Reading<Claims>
        ensures { Gives result (claims_member name.now (view value.now) self) }
    {
        self.read_key(alloc, sense_named(name), name, value)
    }
}

/// What the members of the top object say.
fn read_members(alloc: Global, members: &Map<String, Value>) -> Reading<Claims>
    ensures { Gives result (claims_in (members_view members.now.entries)) }
{
    let mut claims = Claims::nothing(alloc);
    for (name, member) in members.iter() {
        claims = claims.read_member(alloc, name.as_str(), member)?;
    }
    Ok(claims)
}

/// The claims of a JSON value.
fn read_value(alloc: Global, value: &Value) -> Reading<Claims>
    ensures { Gives result (claims_of (Some (view value.now))) }
{
    match value.as_object() {
        Some(members) => read_members(alloc, members),
        None => no_object(alloc),
    }
}

/// The claims that a file's bytes are, of which there are at most 1,048,576, or the refusal that comes first, with its place as in a
/// policy: it begins with `expect` or `never`.
pub fn read_claims(alloc: Global, bytes: &[u8]) -> Result<Claims, OrNoMemory<PolicyError>>
    requires { length bytes.now ≤ 2 ^ 20 }
    ensures { Gives result (claims bytes.now) }
{
    match Value::from_slice(alloc, bytes) {
        Ok(value) => read_value(alloc, &value),
        Err(error) if error.is_memory() => Err(OrNoMemory::NoMemory),
        Err(_) => Err(OrNoMemory::Refused(PolicyError::NotJson)),
    }
}
