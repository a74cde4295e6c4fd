//! Texts that a terminal prints as they are.

ghost use Rattle.std.specs.Prelude.{◌≡◌, All, IfOk, OnOk, length, false, string_bytes};
ghost use Rattle.cmh_command.specs.Plain.{IsPlain, is_obeyed};

use cmh_memory::Allocated;
use std::alloc::Global;
use std::convert::AsStr;

/// The words, with all control characters written out. So none of their line feeds stands among those of a text that
/// names them.
pub(crate) fn plain_words<T: AsStr>(alloc: Global, words: &[T]) -> Allocated<Vec<String>>
    ensures plain { IfOk result (λ list. All (λ word. IsPlain false (string_bytes word)) list.items) }
    ensures each { IfOk result (λ list. length list.items ≡ length words.now) }
{
    let mut list = Vec::new(alloc);
    for word in words {
        let plain = plain_text(alloc, word.as_str(), false)?;
        list.push(plain)?;
    }
    Ok(list)
}

/// The text with its control characters written out, but for line feeds where it has lines: a terminal would obey them.
#[tactic(auto, using(crate::proofs::PlainTexts::plain_none))]
pub(crate) fn plain_text(alloc: Global, text: &str, has_lines: bool) -> Allocated<String>
    ensures { IfOk result (λ plain. IsPlain has_lines (string_bytes plain)) }
{
    let mut plain = String::new(alloc);
    for c in text.chars() {
        push_plain(&mut plain, c, has_lines)?;
    }
    Ok(plain)
}

/// Appends the character, or what stands for it where a terminal obeys it, as `\u{1b}`.
fn push_plain(text: &mut String, c: char, has_lines: bool) -> Allocated<()>
    ensures { OnOk result (IsPlain has_lines (string_bytes text.old)
        → IsPlain has_lines (string_bytes text.new)) }
{
    if !is_obeyed(c, has_lines) {
        return push_shown(text, c, has_lines);
    }
    push_shown(text, '\\', has_lines)?;
    push_shown(text, 'u', has_lines)?;
    push_shown(text, '{', has_lines)?;
    push_digits(text, c as u32, has_lines)?;
    push_shown(text, '}', has_lines)
}

/// Appends the one or two hexadecimal digits of a code below 256.
fn push_digits(text: &mut String, code: u32, has_lines: bool) -> Allocated<()>
    ensures { OnOk result (IsPlain has_lines (string_bytes text.old)
        → IsPlain has_lines (string_bytes text.new)) }
{
    if code < 16 {
        return push_digit(text, code, has_lines);
    }
    push_digit(text, code / 16, has_lines)?;
    push_digit(text, code % 16, has_lines)
}

/// Appends a hexadecimal digit.
fn push_digit(text: &mut String, digit: u32, has_lines: bool) -> Allocated<()>
    ensures { OnOk result (IsPlain has_lines (string_bytes text.old)
        → IsPlain has_lines (string_bytes text.new)) }
{
    match char::from_digit(digit, 16) {
        Some(c) => push_shown(text, c, has_lines),
        None => Ok(()),
    }
}

/// Appends the character, unless a terminal obeys it.
#[tactic(auto, using(crate::proofs::PlainTexts::plain_push))]
fn push_shown(text: &mut String, c: char, has_lines: bool) -> Allocated<()>
    ensures { OnOk result (IsPlain has_lines (string_bytes text.old)
        → IsPlain has_lines (string_bytes text.new)) }
{
    if is_obeyed(c, has_lines) {
        return Ok(());
    }
    text.push(c)
}

/// Whether a terminal obeys the character: below U+0020, DEL, or U+0080 to U+009F.
fn is_obeyed(c: char, has_lines: bool) -> bool
    ensures { result ≡ is_obeyed has_lines c }
{
    c.is_control() && !(has_lines && c == '\n')
}
