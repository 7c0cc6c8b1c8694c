//! The command.
ghost use Rattle.std.specs.Prelude.{◌≤◌, [], length, OnOk};
ghost use Rattle.std.specs.Str.{chars};
ghost use Rattle.std.specs.String.{string_bytes};
ghost use Rattle.tcl_words.specs.Outcomes.{Gives, answer_text};
ghost use Rattle.tcl_format.specs.Specifiers.{shown};
ghost use Rattle.tcl_format.specs.Filling.{item_of, items, next_value, put_value, put_item, filled};
ghost use Rattle.tcl_format.specs.Filling.{format_of};

use crate::pieces::{add_aligned, add_letter, add_piece};
use crate::refusal::{bad_format, not_enough};
use crate::specifier::{Conversion, Kind, Specifier, first, read_specifier};
use std::alloc::Global;
use tcl_text::integer::Integers;
use tcl_text::text::Text;
use tcl_value::value::Value;
use tcl_words::answer::Answer;
use tcl_words::refusal::{Refusal, wrong_arguments};

/// How many bytes more than the text itself room is made for at first.
const SPARE: usize = 16;

/// The next value, and those behind it.
fn next_value(alloc: Global, values: &[Value]) -> Result<(&Value, &[Value]), Refusal>
    ensures { Gives (λ p. (p.0.now, p.1.now)) result (next_value values.now) }
{
    match values {
        [] => Err(not_enough(alloc)),
        [value, left @ ..] => Ok((value, left)),
    }
}

/// Adds what a specifier makes of the next value, and gives the values that are left.
fn add_value<'a>(
    alloc: Global,
    style: Integers,
    made: &mut String,
    specifier: Specifier,
    kind: Kind,
    text: &str,
    rest: &str,
    values: &'a [Value],
) -> Result<&'a [Value], Refusal>
    requires { length (string_bytes made.old) ≤ 16777216 }
    ensures added { Gives
        (λ left. (string_bytes made.new, left.now)) result
        (put_value style (string_bytes made.old) specifier (shown (chars text.now) (chars rest.now))
        (Conversion.Value kind) values.now) }
    ensures within { OnOk result (length (string_bytes made.new) ≤ 16777216) }
{
    let (value, left) = next_value(alloc, values)?;
    add_piece(alloc, style, made, specifier, kind, text, rest, value)?;
    Ok(left)
}

/// Adds what the text behind a `%` stands for, and gives the values that are left.
fn add_specified<'a>(
    alloc: Global,
    style: Integers,
    made: &mut String,
    read: Option<Specifier>,
    text: &str,
    rest: &str,
    values: &'a [Value],
) -> Result<&'a [Value], Refusal>
    requires { length (string_bytes made.old) ≤ 16777216 }
    ensures added { Gives
        (λ left. (string_bytes made.new, left.now)) result
        (put_item style (string_bytes made.old)
        (item_of read (shown (chars text.now) (chars rest.now))) values.now) }
    ensures within { OnOk result (length (string_bytes made.new) ≤ 16777216) }
{
    let Some(specifier) = read else {
        return Err(bad_format(alloc, text, rest));
    };
    match specifier.conversion {
        Conversion::Percent => {
            add_aligned(alloc, made, specifier, "%")?;
            Ok(values)
        }
        Conversion::Value(kind) => {
            add_value(alloc, style, made, specifier, kind, text, rest, values)
        }
    }
}

/// A text with values in the place of its specifiers.
fn filled(alloc: Global, style: Integers, text: &str, values: &[Value]) -> Result<String, Refusal>
    ensures { Gives string_bytes result (filled style [] (items (chars text.now) 0) values.now) }
{
    let mut made = String::with_capacity(alloc, text.len().saturating_add(SPARE))?;
    let mut rest = text;
    let mut left = values;
    'items: while let Some((letter, behind)) = first(rest) {
        if letter == '%' {
            let (read, after) = read_specifier(behind);
            left = add_specified(alloc, style, &mut made, read, behind, after, left)?;
            rest = after;
        } else {
            add_letter(alloc, &mut made, letter)?;
            rest = behind;
        }
    }
    Ok(made)
}

/// The same of the text of a value.
fn filled_form(
    alloc: Global,
    style: Integers,
    form: &Value,
    values: &[Value],
) -> Result<String, Refusal>
    ensures { Gives string_bytes result (filled style [] (items (chars form.now) 0) values.now) }
{
    if let Some(text) = form.as_text() {
        return filled(alloc, style, text.as_str(), values);
    }
    let text = form.text(alloc)?;
    filled(alloc, style, text.as_str(), values)
}

/// `format formatString ?arg ...?`: the text with values in the place of its specifiers, from the
/// left. Values that are left over count for nothing.
///
/// # Errors
/// 241; the first from the left of 251, 111, 112 and 122; want of memory.
pub fn format(alloc: Global, style: Integers, words: &[Value]) -> Result<Answer, Refusal>
    ensures { Gives answer_text result (format_of style words.now) }
{
    match words {
        [] => Err(wrong_arguments(alloc, "format formatString ?arg ...?")),
        [form, values @ ..] => {
            let made = filled_form(alloc, style, form, values)?;
            Ok(Answer::Text(Text::from_string(alloc, made)?))
        }
    }
}
