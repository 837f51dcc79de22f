//! The words that say which request a line is.

ghost use Rattle.std.specs.Prelude.{◌≡◌};
ghost use Rattle.step_requests.specs.Words as definitions;

use lex_core::{Reason, Token};

/// Which request a line is.
#[derive(Clone, Copy)]
pub enum Form {
    Able,
    /// `t`, the step of a task.
    Task,
    /// `w`, and what a worker does.
    Worker(Deed),
    Report,
    Script,
    /// `judge`, and with `idle` behind it, of a broker that does nothing more.
    Judge { idle: bool },
    /// `look`, and what is looked at.
    Look(LookAt),
    Close,
}

/// What a line looks at.
#[derive(Clone, Copy)]
pub enum LookAt {
    Pid,
    Fd,
    Path,
    Listener,
}

/// Which of a worker's requests a line is. The raw ones have a structure's bytes, and the others its fields.
#[derive(Clone, Copy)]
pub enum Deed {
    Recv,
    RecvRaw,
    OpenMem,
    OpenBase,
    Check,
    Read,
    Mknod,
    Mknodat,
    Mount,
    SetXattr,
    Plant,
    Addfd,
    AddfdRaw,
    AddfdResult,
    Send,
    SendRaw,
    LetGo,
}

/// The word that a token is; a text between quotes is none, and so is empty here.
pub fn word_of<'a>(token: &'a Token<'_>) -> &'a [u8]
    ensures { result.now ≡ definitions.word_of token.now }
{
    match token {
        Token::Bare(word) => word.items(),
        Token::Quoted(_) => &[],
    }
}

/// The request without a worker that a word names.
fn form_named(word: &[u8]) -> Option<Form>
    ensures { result ≡ definitions.form_named word.now }
{
    if word == b"able".as_slice() {
        Some(Form::Able)
    } else if word == b"t".as_slice() {
        Some(Form::Task)
    } else if word == b"report".as_slice() {
        Some(Form::Report)
    } else if word == b"script".as_slice() {
        Some(Form::Script)
    } else if word == b"close".as_slice() {
        Some(Form::Close)
    } else {
        None
    }
}

/// What a worker does that a word names, but for `act`.
pub fn deed_named(word: &[u8]) -> Option<Deed>
    ensures { result ≡ definitions.deed_named word.now }
{
    if word == b"recv".as_slice() {
        Some(Deed::Recv)
    } else if word == b"recv-raw".as_slice() {
        Some(Deed::RecvRaw)
    } else if word == b"open-mem".as_slice() {
        Some(Deed::OpenMem)
    } else if word == b"open-base".as_slice() {
        Some(Deed::OpenBase)
    } else if word == b"check".as_slice() {
        Some(Deed::Check)
    } else if word == b"read".as_slice() {
        Some(Deed::Read)
    } else if word == b"plant".as_slice() {
        Some(Deed::Plant)
    } else {
        answer_named(word)
    }
}

/// What a worker does for the answer of a call that a word names.
fn answer_named(word: &[u8]) -> Option<Deed>
    ensures { result ≡ definitions.answer_named word.now }
{
    if word == b"addfd".as_slice() {
        Some(Deed::Addfd)
    } else if word == b"addfd-raw".as_slice() {
        Some(Deed::AddfdRaw)
    } else if word == b"addfd-result".as_slice() {
        Some(Deed::AddfdResult)
    } else if word == b"send".as_slice() {
        Some(Deed::Send)
    } else if word == b"send-raw".as_slice() {
        Some(Deed::SendRaw)
    } else if word == b"let-go".as_slice() {
        Some(Deed::LetGo)
    } else {
        None
    }
}

/// The call that the word behind `act` names.
fn call_named(word: &[u8]) -> Option<Deed>
    ensures { result ≡ definitions.call_named word.now }
{
    if word == b"mknod".as_slice() {
        Some(Deed::Mknod)
    } else if word == b"mknodat".as_slice() {
        Some(Deed::Mknodat)
    } else if word == b"mount".as_slice() {
        Some(Deed::Mount)
    } else if word == b"setxattr".as_slice() {
        Some(Deed::SetXattr)
    } else {
        None
    }
}

/// What a worker does in a line, where a word names it.
fn worker_form(deed: Option<Deed>) -> Result<Form, Reason>
    ensures { result ≡ definitions.worker_form deed }
{
    match deed {
        Some(deed) => Ok(Form::Worker(deed)),
        None => Err(Reason::UnknownWord),
    }
}

/// Which request a line is whose tokens behind `act` are these.
fn form_behind_act(rest: &[Token<'_>]) -> Result<Form, Reason>
    ensures { result ≡ definitions.form_behind_act rest.now }
{
    match rest.first() {
        Some(call) => worker_form(call_named(word_of(call))),
        None => Err(Reason::WrongCount),
    }
}

/// Which request a line is whose tokens behind the number of its worker are these.
fn form_behind_number(rest: &[Token<'_>]) -> Result<Form, Reason>
    ensures { result ≡ definitions.form_behind_number rest.now }
{
    let Some((deed, operands)) = rest.split_first() else {
        return Err(Reason::WrongCount);
    };
    let word = word_of(deed);
    if word == b"act".as_slice() {
        form_behind_act(operands)
    } else {
        worker_form(deed_named(word))
    }
}

/// Which request a line is whose tokens behind `w` are these.
fn form_behind_w(rest: &[Token<'_>]) -> Result<Form, Reason>
    ensures { result ≡ definitions.form_behind_w rest.now }
{
    match rest.split_first() {
        Some((_, behind)) => form_behind_number(behind),
        None => Err(Reason::WrongCount),
    }
}

/// Which request a line is whose tokens behind `judge` are these.
fn form_behind_judge(rest: &[Token<'_>]) -> Result<Form, Reason>
    ensures { result ≡ definitions.form_behind_judge rest.now }
{
    match rest.first() {
        Some(how) if word_of(how) == b"idle".as_slice() => Ok(Form::Judge { idle: true }),
        Some(_) => Err(Reason::UnknownWord),
        None => Ok(Form::Judge { idle: false }),
    }
}

/// What a word behind `look` names.
fn look_named(word: &[u8]) -> Option<LookAt>
    ensures { result ≡ definitions.look_named word.now }
{
    if word == b"pid".as_slice() {
        Some(LookAt::Pid)
    } else if word == b"fd".as_slice() {
        Some(LookAt::Fd)
    } else if word == b"path".as_slice() {
        Some(LookAt::Path)
    } else if word == b"listener".as_slice() {
        Some(LookAt::Listener)
    } else {
        None
    }
}

/// What a line looks at, where a word names it.
fn look_form(at: Option<LookAt>) -> Result<Form, Reason>
    ensures { result ≡ definitions.look_form at }
{
    match at {
        Some(at) => Ok(Form::Look(at)),
        None => Err(Reason::UnknownWord),
    }
}

/// Which request a line is whose tokens behind `look` are these.
fn form_behind_look(rest: &[Token<'_>]) -> Result<Form, Reason>
    ensures { result ≡ definitions.form_behind_look rest.now }
{
    match rest.first() {
        Some(at) => look_form(look_named(word_of(at))),
        None => Err(Reason::WrongCount),
    }
}

/// Which request a line is that begins with a word other than `w`, `judge` and `look`.
fn plain_form(word: &[u8]) -> Result<Form, Reason>
    ensures { result ≡ definitions.plain_form word.now }
{
    match form_named(word) {
        Some(form) => Ok(form),
        None => Err(Reason::UnknownWord),
    }
}

/// Which request a line is. `UnknownWord` comes where a word names none, and `WrongCount` where the line ends before the
/// words do.
pub fn form_of(line: &[Token<'_>]) -> Result<Form, Reason>
    ensures { result ≡ definitions.form_of line.now }
{
    let Some((first, rest)) = line.split_first() else {
        return Err(Reason::UnknownWord);
    };
    let word = word_of(first);
    if word == b"w".as_slice() {
        form_behind_w(rest)
    } else if word == b"judge".as_slice() {
        form_behind_judge(rest)
    } else if word == b"look".as_slice() {
        form_behind_look(rest)
    } else {
        plain_form(word)
    }
}
