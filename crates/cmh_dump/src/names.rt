//! Which texts are names of sites and processes.

ghost use Rattle.std.specs.Prelude.{◌≡◌, not, position};
ghost use Rattle.std.specs.List.{list_all};
ghost use Rattle.cmh_dump.specs.Name.{is_name, is_name_byte};
ghost use Rattle.cmh_dump.specs.Tree.{text_of};
ghost use Rattle.serde_json.specs.View.{view};

use crate::MAX_NAME;
use crate::tree::text_in;
use serde_json::Value;

fn is_name_byte(byte: u8) -> bool
    ensures { result ≡ is_name_byte byte }
{
    byte.is_ascii_alphanumeric() || matches!(byte, b'_' | b'-' | b'.' | b':' | b'/')
}

fn all_name_bytes(bytes: &[u8]) -> bool
    ensures { result ≡ list_all is_name_byte bytes.now }
{
    bytes.iter().all(|byte| is_name_byte(*byte))
}

/// A name has 1 to `MAX_NAME` bytes: ASCII letters, digits and `_ - . : /`. The first is a letter or a digit.
pub(crate) fn is_name(text: &str) -> bool
    ensures { result ≡ is_name text.now }
{
    let bytes = text.as_bytes();
    if bytes.is_empty() || bytes.len() > MAX_NAME {
        return false;
    }
    bytes[0].is_ascii_alphanumeric() && all_name_bytes(bytes)
}

/// All values are names.
pub(crate) fn are_names_in(values: &[Value]) -> bool
    ensures { result ≡ list_all (λ value. is_name (text_of (view value))) values.now }
{
    values.iter().all(|value| is_name(text_in(value)))
}

/// The place of the first text that is no name.
pub(crate) fn first_bad_name(texts: &[&str]) -> Option<usize>
    ensures { result ≡ position (λ text. not (is_name text.now)) texts.now }
{
    texts.iter().position(|text| !is_name(text))
}
