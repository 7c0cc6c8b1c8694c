//! Texts as bytes: how they are read, and how they are written into room that a caller has.
ghost use Rattle.std.specs.Prelude.{◌≡◌, drop, length, true, IfErr, IfOk, OnOk};
ghost use Rattle.std.specs.String.{string_bytes};
ghost use Rattle.tcl_language.specs.Instructions.{fits};
ghost use Rattle.tcl_sessions.specs.Texts.{RefusesList, RefusesText, front};
ghost use Rattle.tcl_text.specs.Lists.{Spells};
ghost use Rattle.tcl_text.specs.Writing.{written};

use crate::refusal::Refusal;
use std::alloc::Global;
use tcl_text::limit::MOST_BYTES;
use tcl_text::list::{read_list, write_element};
use tcl_text::text::Text;
use tcl_value::value::Value;

/// The text that bytes are.
///
/// # Errors
/// 122 where there are more than a value may have; 265 where they aren't UTF-8.
pub fn text_of(bytes: &[u8]) -> Result<&str, Refusal>
    ensures text { IfOk result (λ text. text.now ≡ bytes.now) }
    ensures short { OnOk result (fits bytes.now ≡ true) }
    ensures refused { IfErr result (λ e. RefusesText e bytes.now) }
{
    if bytes.len() > MOST_BYTES {
        return Err(Refusal::TooLong);
    }
    match str::from_utf8(bytes) {
        Ok(text) => Ok(text),
        Err(_) => Err(Refusal::NotUtf8),
    }
}

/// The name that bytes are.
///
/// # Errors
/// 122, 265; 401.
pub fn name_of(alloc: Global, bytes: &[u8]) -> Result<Text, Refusal>
    ensures text { IfOk result (λ name. name ≡ bytes.now) }
    ensures refused { IfErr result (λ e. RefusesText e bytes.now) }
{
    let text = text_of(bytes)?;
    Ok(Text::new(alloc, text)?)
}

/// The value that bytes are.
///
/// # Errors
/// 122, 265; 401.
pub fn value_of(alloc: Global, bytes: &[u8]) -> Result<Value, Refusal>
    ensures text { IfOk result (λ value. value ≡ bytes.now) }
    ensures refused { IfErr result (λ e. RefusesText e bytes.now) }
{
    let text = text_of(bytes)?;
    Ok(Value::from_short_text(Text::new(alloc, text)?))
}

/// The path that bytes spell, which are a list of names; that of the root is empty.
///
/// # Errors
/// 122, 265; 101 to 104 where they spell no list; 401.
pub fn path_of(alloc: Global, bytes: &[u8]) -> Result<Vec<Text>, Refusal>
    ensures path { IfOk result (λ path. Spells path.items bytes.now) }
    ensures refused { IfErr result (λ e. RefusesList e bytes.now) }
{
    let text = text_of(bytes)?;
    Ok(read_list(alloc, text)?)
}

/// The words that bytes spell, which are a list.
///
/// # Errors
/// 122, 265; 101 to 104 where they spell no list; 401.
pub fn words_of(alloc: Global, bytes: &[u8]) -> Result<Vec<Value>, Refusal>
    ensures { IfOk result (λ words. Spells words.items bytes.now) }
{
    let texts = path_of(alloc, bytes)?;
    values_of(alloc, texts.as_slice())
}

/// The values of these texts.
///
/// # Errors
/// 122 where one of them is longer than a value may be; 401.
fn values_of(alloc: Global, texts: &[Text]) -> Result<Vec<Value>, Refusal>
    ensures { IfOk result (λ values. values.items ≡ texts.now) }
{
    let mut values = Vec::new(alloc);
    'texts: for text in texts {
        values.push(Value::from_text(text.clone()?)?)?;
    }
    Ok(values)
}

/// A text as one element of a list.
///
/// # Errors
/// 122, 265; 401.
pub fn quoted(alloc: Global, bytes: &[u8]) -> Result<String, Refusal>
    ensures text { IfOk result (λ text. string_bytes text ≡ written true bytes.now) }
    ensures refused { IfErr result (λ e. RefusesText e bytes.now) }
{
    let text = text_of(bytes)?;
    let mut quoted = String::new(alloc);
    write_element(&mut quoted, text, true)?;
    Ok(quoted)
}

/// Writes a text, and a byte 0 behind it, into room that there is for both; of a text that is
/// longer, as much as leaves room for the byte 0. Where there is no room, nothing is written. Gives
/// how long the whole text is.
pub fn write_front(text: &[u8], room: &mut [u8]) -> usize
    ensures whole { result ≡ length text.now }
    ensures written { room.new ≡ front text.now room.old }
{
    if room.is_empty() {
        return text.len();
    }
    let count = text.len().min(room.len() - 1);
    room[..count].copy_from_slice(&text[..count]);
    room[count] = 0;
    text.len()
}

/// The bytes behind so many.
pub fn behind(bytes: &[u8], from: usize) -> &[u8]
    ensures { result.now ≡ drop from bytes.now }
{
    &bytes[from.min(bytes.len())..]
}
