//! Whether a container can make a call.

ghost use Rattle.std.specs.Prelude.{◌≡◌, IsTrue};
ghost use Rattle.policy_classes.specs.Asked.{IsCall, is_descriptor_number, is_text_within, is_value_within, path_max};

use hist_model::request::Request;
use hist_model::text::Text;

/// The greatest lengths of a path, of an attribute's name, and of its value.
const PATH_MAX: usize = 4095;

const NAME_MAX: usize = 255;

const VALUE_MAX: usize = 4096;

/// Whether a text has at most so many bytes, none of them zero.
fn is_text_within(most: usize, text: &[u8]) -> bool
    ensures { result ≡ is_text_within most text.now }
{
    text.len() <= most && !text.contains(&0)
}

/// Whether a value has at most so many bytes.
fn is_value_within(most: usize, value: &[u8]) -> bool
    ensures { result ≡ is_value_within most value.now }
{
    value.len() <= most
}

/// Whether a call may have a text as a path, or as another text of a mount.
fn is_path(text: &Text) -> bool
    ensures { result ≡ is_text_within path_max text.now }
{
    is_text_within(PATH_MAX, text.items())
}

/// Whether a call may have a descriptor: each of 32 bits.
fn is_descriptor(_number: i32) -> bool
    ensures { result ≡ is_descriptor_number _number }
{
    true
}

/// Whether a container can make a call.
#[tactic(auto, using(crate::proofs::RuleClasses::empty_list))]
pub fn is_call(request: &Request) -> bool
    ensures { IsTrue result → IsCall request.now }
{
    match request {
        Request::Mknod {
            dirfd: None,
            path,
            ..
        } => is_path(path),
        Request::Mknod {
            dirfd: Some(fd),
            path,
            ..
        } => is_path(path) && is_descriptor(*fd),
        Request::Mount {
            source,
            target,
            fstype,
            options,
            via,
            shift,
            ..
        } => is_path(source)
            && is_path(target)
            && is_path(fstype)
            && is_path(options)
            && via.items().is_empty()
            && !*shift,
        Request::SetXattr {
            path,
            name,
            value,
            ..
        } => is_path(path)
            && is_text_within(NAME_MAX, name.items())
            && is_value_within(VALUE_MAX, value.items()),
        Request::OpenAt { dirfd, path, .. } => is_path(path) && is_descriptor(*dirfd),
        Request::Sysinfo { .. } | Request::Other { .. } => false,
    }
}
