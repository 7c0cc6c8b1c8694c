//! Texts by their characters.
ghost use Rattle.std.specs.Prelude.{◌≡◌, ℕ, List, ◌++◌, length, take, drop};
ghost use Rattle.std.specs.Str.{chars};

/// What follows the first `count` characters.
pub fn skip_characters(text: &str, count: usize) -> &str
    ensures rest { chars result.now ≡ drop count (chars text.now) }
    ensures cut { (front : List ℕ) × (text.now ≡ front ++ result.now) ×
        (chars front ≡ take count (chars text.now)) }
{
    let mut rest = text.chars();
    'skip: for _ in 0..count {
        if rest.next().is_none() {
            break;
        }
    }
    rest.as_str()
}

/// The first `count` characters, or all where there are fewer.
pub fn first_characters(text: &str, count: usize) -> &str
    ensures { chars result.now ≡ take count (chars text.now) }
{
    let rest = skip_characters(text, count);
    let end = text.len() - rest.len();
    &text[..end]
}
