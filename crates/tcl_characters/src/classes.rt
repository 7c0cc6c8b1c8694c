//! Classes of characters.
ghost use Rattle.std.specs.Prelude.{◌≡◌};
ghost use Rattle.std.specs.List.{list_all};
ghost use Rattle.std.specs.Str.{chars};
ghost use Rattle.tcl_characters.specs.Classes.{is_member};

/// A class of ASCII characters.
#[derive(Clone, Copy, Debug)]
pub enum Class {
    /// Letters.
    Alpha,
    /// Decimal digits.
    Digit,
    /// Letters and decimal digits.
    Alnum,
    /// Upper case letters.
    Upper,
    /// Lower case letters.
    Lower,
    /// White space.
    Space,
    /// Hexadecimal digits.
    Xdigit,
}

/// Whether a character is of a class.
fn is_member(class: Class, letter: char) -> bool
    ensures { result ≡ is_member class letter }
{
    match class {
        Class::Alpha => letter.is_ascii_alphabetic(),
        Class::Digit => letter.is_ascii_digit(),
        Class::Alnum => letter.is_ascii_alphanumeric(),
        Class::Upper => letter.is_ascii_uppercase(),
        Class::Lower => letter.is_ascii_lowercase(),
        Class::Space => letter == ' ' || ('\t'..='\r').contains(&letter),
        Class::Xdigit => letter.is_ascii_hexdigit(),
    }
}

/// Whether every character of a text is of a class.
pub fn all_members(class: Class, text: &str) -> bool
    ensures { result ≡ list_all (is_member class) (chars text.now) }
{
    text.chars().all(|c| is_member(class, c))
}
