//! The characters of texts, one by one.
ghost use Rattle.std.specs.Prelude.{◌≡◌, ℕ, ◌∷◌, [], MatchOption};
ghost use Rattle.std.specs.Str.{chars};
ghost use Rattle.std.specs.Char.{encode_utf8};

/// The first character of a text, as a text, and what follows it.
pub(crate) fn split_first(text: &str) -> Option<(&str, &str)>
    ensures { MatchOption result (chars text.now ≡ [])
        (λ found. (c : ℕ) × (chars text.now ≡ c ∷ chars found.1.now) ×
        (found.0.now ≡ encode_utf8 c)) }
{
    let mut characters = text.chars();
    characters.next()?;
    let behind = characters.as_str();
    let (first, _) = text.split_at(text.len() - behind.len());
    Some((first, behind))
}
