//! The characters of texts, as patterns compare them.
ghost use Rattle.std.specs.Prelude.{◌≡◌, ◌∷◌, ◌<◌, [], length, drop, MatchOption, IfSome};
ghost use Rattle.std.specs.Str.{chars};
ghost use Rattle.tcl_glob.specs.Patterns.{letters};

/// The first character of a text, in lower case if it is an ASCII letter and case doesn't count,
/// and what follows it.
pub fn first_letter(text: &str, nocase: bool) -> Option<(char, &str)>
    ensures letters { MatchOption result (letters nocase text.now ≡ [])
        (λ found. (letters nocase text.now ≡ found.0 ∷ letters nocase found.1.now)
        × (length found.1.now < length text.now)) }
    ensures characters { IfSome result (λ found. chars found.1.now ≡ drop 1 (chars text.now)) }
{
    let mut characters = text.chars();
    let first = characters.next()?;
    let letter = if nocase {
        first.to_ascii_lowercase()
    } else {
        first
    };
    Some((letter, characters.as_str()))
}
