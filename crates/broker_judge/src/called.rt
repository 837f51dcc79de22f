//! The call that a seat has in hand, and what the policy says of it with some texts.

ghost use Rattle.std.specs.Prelude.{◌≡◌, [], ◌∷◌, IfOk};
ghost use Rattle.std.specs.Option.{option_copied};
ghost use Rattle.broker_verdict.specs.Effects.{is_relative, texts_of};
ghost use Rattle.hist_model.specs.Decisions.{decide};
ghost use Rattle.hist_model.specs.Requests.{request};
ghost use Rattle.broker_judge.specs.Called.{decided_by};

use emu_request::request;
use hist_model::policy::{Policy, Verdict};
use hist_model::request::{ArgCopy, Request};
use hist_model::text::{Sequence, Text};
use policy_eval::decide;
use std::alloc::Global;
use sys_abi::memory::NoMemory;

/// A listed call, by its registers, and the id of its notification.
#[derive(Clone, Copy, PartialEq, Eq, Debug)]
pub struct Called {
    pub id: u64,
    pub nr: i32,
    pub args: [u64; 6],
}

/// The rule that decides a call with some texts, by its place, its verdict, and the request.
#[derive(Debug, Drop)]
pub struct Decided {
    pub rule: usize,
    pub verdict: Verdict,
    pub request: Request,
}

/// A copy of these texts.
fn copied_texts(alloc: Global, texts: &[Text]) -> Result<Vec<Text>, NoMemory>
    ensures { IfOk result (λ copied. copied.items ≡ texts.now) }
{
    let mut copied = Vec::with_capacity(alloc, texts.len())?;
    for text in texts {
        copied.push(text.copied(alloc)?)?;
    }
    Ok(copied)
}

/// What a call asks for with these texts.
fn request_with(alloc: Global, called: &Called, texts: &[Text]) -> Result<Request, NoMemory>
    ensures { IfOk result (λ q. q ≡ request called.now.nr called.now.args texts.now) }
{
    Ok(request(
        called.nr,
        &called.args,
        ArgCopy {
            texts: Sequence::new(copied_texts(alloc, texts)?),
        },
    ))
}

/// What it asks for, without its texts.
pub fn request_without(alloc: Global, called: &Called) -> Request
    ensures { result ≡ request called.now.nr called.now.args [] }
{
    request(
        called.nr,
        &called.args,
        ArgCopy {
            texts: Sequence::new(Vec::new(alloc)),
        },
    )
}

/// The rule that decides a call with these texts, its verdict, and what the call asks for.
pub fn decide_with(
    alloc: Global,
    policy: &Policy,
    called: &Called,
    texts: &[Text],
) -> Result<Decided, NoMemory>
    ensures rule { IfOk result (λ d. decided_by d ≡ decide policy.now.rules (request called.now.nr called.now.args texts.now)) }
    ensures request { IfOk result (λ d. d.request ≡ request called.now.nr called.now.args texts.now) }
{
    let request = request_with(alloc, called, texts)?;
    let (rule, verdict) = decide(policy, &request);
    Ok(Decided {
        rule,
        verdict,
        request,
    })
}

/// One text.
fn one_text(alloc: Global, text: &Text) -> Result<Vec<Text>, NoMemory>
    ensures { IfOk result (λ texts. texts.items ≡ text.now ∷ []) }
{
    let mut texts = Vec::with_capacity(alloc, 1)?;
    texts.push(text.copied(alloc)?)?;
    Ok(texts)
}

/// The texts that a request names, in the order of its call's plan.
pub fn texts_of(alloc: Global, request: &Request) -> Result<Vec<Text>, NoMemory>
    ensures { IfOk result (λ texts. texts.items ≡ texts_of request.now) }
{
    match request {
        Request::Mknod { path, .. } | Request::OpenAt { path, .. } => one_text(alloc, path),
        Request::Mount {
            source,
            target,
            fstype,
            options,
            ..
        } => {
            let mut texts = one_text(alloc, source)?;
            texts.push(target.copied(alloc)?)?;
            texts.push(fstype.copied(alloc)?)?;
            texts.push(options.copied(alloc)?)?;
            Ok(texts)
        }
        Request::SetXattr {
            path,
            name,
            value,
            ..
        } => {
            let mut texts = one_text(alloc, path)?;
            texts.push(name.copied(alloc)?)?;
            texts.push(value.copied(alloc)?)?;
            Ok(texts)
        }
        Request::Sysinfo { .. } | Request::Other { .. } => Ok(Vec::new(alloc)),
    }
}

/// Whether a request has a path, and it is relative.
pub fn is_relative(path: Option<&[u8]>) -> bool
    ensures { result ≡ is_relative (option_copied path.entry) }
{
    match path {
        Some(path) => !path.starts_with(b"/"),
        None => false,
    }
}
