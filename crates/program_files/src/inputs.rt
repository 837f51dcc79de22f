//! The files that a play and a check read.

ghost use Rattle.std.specs.Prelude.{◌≡◌, ◌^◌, ◌-◌, ◌<◌, ◌≤◌, true, length, None, Some, Ok, IfOk, IfErr, OnOk, Err};
ghost use Rattle.io_edge.specs.FileState.{SameFiles};
ghost use Rattle.std.specs.Option.{option_copied};
ghost use Rattle.program_files.specs.Inputs.{CallsAre, ClaimsAre, HasBytes, NamedScriptIs, PolicyHas, PolicyIs, ReportIs, ScriptFileIs, ScriptHas, ScriptIs, policy_limit};
ghost use Rattle.script_reader.specs.Rules.{AreTurns};
ghost use Rattle.program_files.specs.Refusals.{CallsRefused, ClaimsRefused, FileRefused, InputRefused, NamedScriptRefused, NewPolicyRefused, PoliciesRefused, PolicyRefused, ReportRefused, ScriptRefused};
ghost use Rattle.program_files.specs.declared.status.InputFile.TheVariants as input;
ghost use Rattle.program_files.specs.declared.status.Refusal.TheVariants.{ReadFault};
ghost use Rattle.program_files.specs.declared.status.Status.TheVariants.{Refused};

use crate::status::{InputFile, Refusal, Status};
use hist_model::policy::Policy;
use hist_model::script::Script;
use io_edge::files::Files;
use io_edge::whole::{ReadAllError, read_all};
use policy_claims::claims::Claims;
use script_reader::ScriptFile;
use std::alloc::Global;
use sys_abi::memory::OrNoMemory;

/// How many bytes of a policy are read at most.
const POLICY_LIMIT: u64 = 1_048_576;

/// How many bytes of claims are read at most.
const CLAIMS_LIMIT: u64 = 1_048_576;

/// How many bytes of a script are read at most.
const SCRIPT_LIMIT: u64 = 8_388_608;

/// How many bytes of calls are read at most.
const CALLS_LIMIT: u64 = 8_388_608;

/// How many bytes of a report are read at most.
const REPORT_LIMIT: u64 = 33_554_432;

/// Reads the whole file of this name, of at most so many bytes; `file` says which one it is.
fn read_file<F: Files>(
    alloc: Global,
    files: &mut F,
    name: &str,
    file: InputFile,
    limit: u64,
) -> Result<Vec<u8>, Status>
    requires { limit < 2 ^ 64 - 1 }
    ensures same { SameFiles (F.state files.old) (F.state files.new) }
    ensures read { IfOk result (λ v. (F.state files.old).tells ≡ true → HasBytes limit ((F.state files.old).bytes name.now) v.items) }
    ensures within { IfOk result (λ v. length v.items ≤ limit) }
    ensures refused { IfErr result (λ s. FileRefused file limit (F.state files.old) (F.state files.new) name.now s) }
    ensures opened { OnOk result ((F.state files.old).tells ≡ true → (F.state files.new).current ≡ Some name.now) }
    ensures absent { (F.state files.old).sound ≡ true → (F.state files.old).bytes name.now ≡ None → result ≡ Err (Refused (ReadFault file)) }
{
    let mut bytes = Vec::new(alloc);
    match read_all(files, name, limit, &mut bytes) {
        Ok(()) => Ok(bytes),
        Err(ReadAllError::ReadFault) => Err(Status::Refused(Refusal::ReadFault(file))),
        Err(ReadAllError::TooLong) => Err(Status::Refused(Refusal::TooLong(file))),
        Err(ReadAllError::NoMemory) => Err(Status::NoMemory),
    }
}

/// Reads the policy of this name.
#[tactic(auto, using(crate::proofs::Reading::reads_as, crate::proofs::Reading::policy_unread))]
pub fn read_policy<F: Files>(alloc: Global, files: &mut F, name: &str) -> Result<Policy, Status>
    ensures same { SameFiles (F.state files.old) (F.state files.new) }
    ensures read { IfOk result (λ p. PolicyIs (F.state files.old) name.now (Ok p)) }
    ensures refused { IfErr result (λ s. PolicyRefused (F.state files.old) (F.state files.new) name.now s) }
    ensures absent { (F.state files.old).sound ≡ true → (F.state files.old).bytes name.now ≡ None → result ≡ Err (Refused (ReadFault input.Policy)) }
{
    let bytes = read_file(alloc, files, name, InputFile::Policy, POLICY_LIMIT)?;
    match policy_reader::read_policy(alloc, bytes.as_slice()) {
        Ok(policy) => Ok(policy),
        Err(OrNoMemory::Refused(error)) => Err(Status::Refused(Refusal::BadPolicy(error))),
        Err(OrNoMemory::NoMemory) => Err(Status::NoMemory),
    }
}

/// Reads the bytes of the policy of this name, be they one or not.
pub fn read_policy_bytes<F: Files>(
    alloc: Global,
    files: &mut F,
    name: &str,
) -> Result<Vec<u8>, Status>
    ensures same { SameFiles (F.state files.old) (F.state files.new) }
    ensures read { IfOk result (λ bytes. PolicyHas (F.state files.old) name.now bytes.items) }
    ensures within { IfOk result (λ bytes. length bytes.items ≤ 1048576) }
    ensures refused { IfErr result (λ s. FileRefused input.Policy policy_limit (F.state files.old) (F.state files.new) name.now s) }
{
    read_file(alloc, files, name, InputFile::Policy, POLICY_LIMIT)
}

/// Reads the policy of this name, which would take another's place.
#[tactic(auto, using(crate::proofs::Reading::reads_as, crate::proofs::Reading::new_policy_unread))]
fn read_new_policy<F: Files>(alloc: Global, files: &mut F, name: &str) -> Result<Policy, Status>
    ensures same { SameFiles (F.state files.old) (F.state files.new) }
    ensures read { IfOk result (λ p. PolicyIs (F.state files.old) name.now (Ok p)) }
    ensures refused { IfErr result (λ s. NewPolicyRefused (F.state files.old) (F.state files.new) name.now s) }
{
    let bytes = read_file(alloc, files, name, InputFile::NewPolicy, POLICY_LIMIT)?;
    match policy_reader::read_policy(alloc, bytes.as_slice()) {
        Ok(policy) => Ok(policy),
        Err(OrNoMemory::Refused(error)) => Err(Status::Refused(Refusal::BadNewPolicy(error))),
        Err(OrNoMemory::NoMemory) => Err(Status::NoMemory),
    }
}

/// Reads the policies of these names, of which the second would take the first one's place.
#[tactic(auto, using(crate::proofs::Reading::old_stops, crate::proofs::Reading::new_stops))]
pub fn read_policies<F: Files>(
    alloc: Global,
    files: &mut F,
    old: &str,
    new: &str,
) -> Result<(Policy, Policy), Status>
    ensures same { SameFiles (F.state files.old) (F.state files.new) }
    ensures old { IfOk result (λ read. PolicyIs (F.state files.old) old.now (Ok read.0)) }
    ensures new { IfOk result (λ read. PolicyIs (F.state files.old) new.now (Ok read.1)) }
    ensures refused { IfErr result (λ s. PoliciesRefused (F.state files.old) (F.state files.new) old.now new.now s) }
{
    let old = read_policy(alloc, files, old)?;
    let new = read_new_policy(alloc, files, new)?;
    Ok((old, new))
}

/// Reads the claims of this name.
#[tactic(auto, using(crate::proofs::Reading::reads_as, crate::proofs::Reading::claims_unread))]
pub fn read_claims<F: Files>(alloc: Global, files: &mut F, name: &str) -> Result<Claims, Status>
    ensures same { SameFiles (F.state files.old) (F.state files.new) }
    ensures read { IfOk result (λ c. ClaimsAre (F.state files.old) name.now (Ok c)) }
    ensures refused { IfErr result (λ s. ClaimsRefused (F.state files.old) (F.state files.new) name.now s) }
{
    let bytes = read_file(alloc, files, name, InputFile::Claims, CLAIMS_LIMIT)?;
    match policy_claims::read_claims(alloc, bytes.as_slice()) {
        Ok(claims) => Ok(claims),
        Err(OrNoMemory::Refused(error)) => Err(Status::Refused(Refusal::BadClaims(error))),
        Err(OrNoMemory::NoMemory) => Err(Status::NoMemory),
    }
}

/// Reads what the file of a script states, and gives the bytes of the file too.
#[tactic(auto, using(crate::proofs::Reading::reads_as, crate::proofs::Reading::script_unread))]
fn read_script_file<F: Files>(
    alloc: Global,
    files: &mut F,
    name: &str,
) -> Result<(ScriptFile, Vec<u8>), Status>
    ensures same { SameFiles (F.state files.old) (F.state files.new) }
    ensures read { IfOk result (λ r. ScriptFileIs (F.state files.old) name.now (Ok r.0)) }
    ensures turns { IfOk result (λ r. AreTurns r.0.turns) }
    ensures bytes { IfOk result (λ r. ScriptHas (F.state files.old) name.now r.1.items) }
    ensures refused { IfErr result (λ s. ScriptRefused (F.state files.old) (F.state files.new) name.now s) }
    ensures absent { (F.state files.old).sound ≡ true → (F.state files.old).bytes name.now ≡ None → result ≡ Err (Refused (ReadFault input.Script)) }
{
    let bytes = read_file(alloc, files, name, InputFile::Script, SCRIPT_LIMIT)?;
    match script_reader::read_file(alloc, bytes.as_slice()) {
        Ok(file) => Ok((file, bytes)),
        Err(OrNoMemory::Refused(error)) => Err(Status::Refused(Refusal::BadScript(error))),
        Err(OrNoMemory::NoMemory) => Err(Status::NoMemory),
    }
}

/// Reads the script of this name, where its schedule doesn't matter.
#[tactic(auto, using(crate::proofs::Reading::script_alone))]
fn read_script<F: Files>(alloc: Global, files: &mut F, name: &str) -> Result<Script, Status>
    ensures same { SameFiles (F.state files.old) (F.state files.new) }
    ensures read { IfOk result (λ s. ScriptIs (F.state files.old) name.now (Ok s)) }
    ensures refused { IfErr result (λ s. ScriptRefused (F.state files.old) (F.state files.new) name.now s) }
{
    let (file, _bytes) = read_script_file(alloc, files, name)?;
    let ScriptFile { script, .. } = file;
    Ok(script)
}

/// Reads the script of a name, if there is one.
pub fn read_named_script<F: Files>(
    alloc: Global,
    files: &mut F,
    name: Option<&str>,
) -> Result<Option<Script>, Status>
    ensures same { SameFiles (F.state files.old) (F.state files.new) }
    ensures read { IfOk result (λ s. NamedScriptIs (F.state files.old) (option_copied name.entry) s) }
    ensures refused { IfErr result (λ s. NamedScriptRefused (F.state files.old) (F.state files.new) (option_copied name.entry) s) }
{
    match name {
        Some(name) => Ok(Some(read_script(alloc, files, name)?)),
        None => Ok(None),
    }
}

/// A policy, what the file of a script states, and the bytes of that file.
pub struct Inputs {
    pub policy: Policy,
    pub file: ScriptFile,
    pub bytes: Vec<u8>,
}

/// Reads the policy and then the script of these names.
#[tactic(auto, using(crate::proofs::Reading::policy_stops, crate::proofs::Reading::script_stops))]
pub fn read_stated<F: Files>(
    alloc: Global,
    files: &mut F,
    policy: &str,
    script: &str,
) -> Result<Inputs, Status>
    ensures same { SameFiles (F.state files.old) (F.state files.new) }
    ensures policy { IfOk result (λ read. PolicyIs (F.state files.old) policy.now (Ok read.policy)) }
    ensures file { IfOk result (λ read. ScriptFileIs (F.state files.old) script.now (Ok read.file)) }
    ensures turns { IfOk result (λ read. AreTurns read.file.turns) }
    ensures bytes { IfOk result (λ read. ScriptHas (F.state files.old) script.now read.bytes.items) }
    ensures refused { IfErr result (λ s. InputRefused (F.state files.old) (F.state files.new) policy.now script.now s) }
    ensures absent { (F.state files.old).sound ≡ true → (F.state files.old).bytes policy.now ≡ None → result ≡ Err (Refused (ReadFault input.Policy)) }
{
    let policy = read_policy(alloc, files, policy)?;
    let (file, bytes) = read_script_file(alloc, files, script)?;
    Ok(Inputs {
        policy,
        file,
        bytes,
    })
}

/// Reads the policy and then the script of these names, where the script's schedule doesn't matter.
#[tactic(auto, using(crate::proofs::Reading::script_alone))]
pub fn read_inputs<F: Files>(
    alloc: Global,
    files: &mut F,
    policy: &str,
    script: &str,
) -> Result<(Policy, Script), Status>
    ensures same { SameFiles (F.state files.old) (F.state files.new) }
    ensures policy { IfOk result (λ read. PolicyIs (F.state files.old) policy.now (Ok read.0)) }
    ensures script { IfOk result (λ read. ScriptIs (F.state files.old) script.now (Ok read.1)) }
    ensures refused { IfErr result (λ s. InputRefused (F.state files.old) (F.state files.new) policy.now script.now s) }
    ensures absent { (F.state files.old).sound ≡ true → (F.state files.old).bytes policy.now ≡ None → result ≡ Err (Refused (ReadFault input.Policy)) }
{
    let Inputs {
        policy,
        file,
        bytes: _bytes,
    } = read_stated(alloc, files, policy, script)?;
    let ScriptFile { script, .. } = file;
    Ok((policy, script))
}

/// Reads the bytes of the report of this name.
#[tactic(auto, using(crate::proofs::Reading::report_unread))]
pub fn read_report<F: Files>(alloc: Global, files: &mut F, name: &str) -> Result<Vec<u8>, Status>
    ensures same { SameFiles (F.state files.old) (F.state files.new) }
    ensures read { IfOk result (λ bytes. ReportIs (F.state files.old) name.now bytes.items) }
    ensures within { IfOk result (λ bytes. length bytes.items ≤ 33554432) }
    ensures refused { IfErr result (λ s. ReportRefused (F.state files.old) (F.state files.new) name.now s) }
{
    read_file(alloc, files, name, InputFile::Report, REPORT_LIMIT)
}

/// Reads the bytes of the calls of this name.
#[tactic(auto, using(crate::proofs::Reading::calls_unread))]
pub fn read_calls<F: Files>(alloc: Global, files: &mut F, name: &str) -> Result<Vec<u8>, Status>
    ensures same { SameFiles (F.state files.old) (F.state files.new) }
    ensures read { IfOk result (λ bytes. CallsAre (F.state files.old) name.now bytes.items) }
    ensures within { IfOk result (λ bytes. length bytes.items ≤ 8388608) }
    ensures refused { IfErr result (λ s. CallsRefused (F.state files.old) (F.state files.new) name.now s) }
{
    read_file(alloc, files, name, InputFile::Calls, CALLS_LIMIT)
}
