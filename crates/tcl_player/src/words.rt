//! Lists of a few words.
ghost use Rattle.std.specs.Fmt.{decimal, signed_decimal};
ghost use Rattle.std.specs.Prelude.{◌≡◌, ◌++◌, ◌∷◌, [], IfOk};
ghost use Rattle.tcl_text.specs.Writing.{written_list};

use std::alloc::{AllocError, Global};
use tcl_text::list::write_list;
use tcl_text::text::Text;
use tcl_value::value::Value;

/// A number in decimal.
pub(crate) fn number_text(alloc: Global, n: u64) -> Result<Text, AllocError>
    ensures { IfOk result (λ text. text ≡ decimal n) }
{
    Text::from_string(alloc, format!(in alloc; "{n}")?)
}

/// A count in decimal.
pub(crate) fn count_text(alloc: Global, n: usize) -> Result<Text, AllocError>
    ensures { IfOk result (λ text. text ≡ decimal n) }
{
    Text::from_string(alloc, format!(in alloc; "{n}")?)
}

/// A code or a status in decimal.
pub(crate) fn code_text(alloc: Global, n: i64) -> Result<Text, AllocError>
    ensures { IfOk result (λ text. text ≡ signed_decimal n) }
{
    Text::from_string(alloc, format!(in alloc; "{n}")?)
}

/// The text of a list.
pub(crate) fn list_text(alloc: Global, list: &[Text]) -> Result<Text, AllocError>
    ensures { IfOk result (λ text. text ≡ written_list list.now) }
{
    Text::from_string(alloc, write_list(alloc, list)?)
}

/// One word.
pub(crate) fn one(alloc: Global, word: &str) -> Result<Vec<Text>, AllocError>
    ensures { IfOk result (λ words. words.items ≡ word.now ∷ []) }
{
    let mut words = Vec::new(alloc);
    words.push(Text::new(alloc, word)?)?;
    Ok(words)
}

/// A word, and a text.
pub(crate) fn two(alloc: Global, word: &str, text: &Text) -> Result<Vec<Text>, AllocError>
    ensures { IfOk result (λ words. words.items ≡ word.now ∷ text.now ∷ []) }
{
    let mut words = one(alloc, word)?;
    words.push(text.clone()?)?;
    Ok(words)
}

/// A word, and two texts.
pub(crate) fn three(
    alloc: Global,
    word: &str,
    first: &Text,
    second: &Text,
) -> Result<Vec<Text>, AllocError>
    ensures { IfOk result (λ words. words.items ≡ word.now ∷ first.now ∷ second.now ∷ []) }
{
    let mut words = two(alloc, word, first)?;
    words.push(second.clone()?)?;
    Ok(words)
}

/// Some words, and the texts of values behind them.
pub(crate) fn with_values(
    alloc: Global,
    front: Vec<Text>,
    values: &[Value],
) -> Result<Vec<Text>, AllocError>
    ensures { IfOk result (λ words. words.items ≡ front.items ++ values.now) }
{
    let mut words = front;
    'values: for value in values {
        words.push(value.text(alloc)?)?;
    }
    Ok(words)
}
