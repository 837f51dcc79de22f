//! The texts that calls may have in a field.

ghost use Rattle.std.specs.Prelude.{◌≡◌, true};
ghost use Rattle.policy_classes.specs.Allowed.{is_allowed, is_asked, limit_of, plain_of};
ghost use Rattle.policy_classes.specs.Asked.{is_text_within, is_value_within};

use crate::atoms::Field;
use crate::order::{PLAIN_PATH, PLAIN_WORD};
use hist_model::text::Text;

/// The texts that calls may have in a field.
#[derive(Clone, Copy)]
pub(crate) enum Limit {
    /// At most so many bytes, none of them zero.
    Text(usize),
    /// At most so many bytes.
    Value(usize),
}

/// The greatest lengths of a path, of an attribute's name, and of its value.
const PATH_MAX: usize = 4095;

const NAME_MAX: usize = 255;

const VALUE_MAX: usize = 4096;

/// Whether the text has at most so many bytes, none of them zero.
fn is_text_within(most: usize, text: &[u8]) -> bool
    ensures { result ≡ is_text_within most text.now }
{
    text.len() <= most && !text.contains(&0)
}

/// Whether the value has at most so many bytes.
fn is_value_within(most: usize, value: &[u8]) -> bool
    ensures { result ≡ is_value_within most value.now }
{
    value.len() <= most
}

impl Limit {
    /// Whether calls may have the text.
    pub(crate) fn allows(self, text: &[u8]) -> bool
        ensures { result ≡ is_allowed self text.now }
    {
        match self {
            Limit::Text(most) => is_text_within(most, text),
            Limit::Value(most) => is_value_within(most, text),
        }
    }
}

/// The texts that calls may have in the field. In one that is no text it doesn't matter.
pub(crate) fn limit_of(field: Field) -> Limit
    ensures { result ≡ limit_of field }
{
    match field {
        Field::Name => Limit::Text(NAME_MAX),
        Field::Value => Limit::Value(VALUE_MAX),
        _ => Limit::Text(PATH_MAX),
    }
}

/// The text that calls have in the field where nothing asks for another.
pub(crate) fn plain_of(field: Field) -> &'static [u8]
    ensures { result.now ≡ plain_of field }
{
    match field {
        Field::Path => PLAIN_PATH,
        Field::Value => b"",
        _ => PLAIN_WORD,
    }
}

/// Whether the text is one of these.
pub(crate) fn is_asked(asked: &[Text], text: &[u8]) -> bool
    ensures { result ≡ is_asked asked.now text.now }
{
    asked.iter().any(|t| text == t.items())
}
