//! What stands behind a `%`: how a value is to be written.
ghost use Rattle.std.specs.Prelude.{◌≡◌, ◌≢◌, ◌↔◌, ◌<◌, ◌∷◌, [], MatchOption, IfSome, IsTrue};
ghost use Rattle.std.specs.Str.{chars};
ghost use Rattle.tcl_format.specs.Specifiers.{is_flag, with_flag, no_flags, read_flags};
ghost use Rattle.tcl_format.specs.Specifiers.{read_number, capped, read_precision, behind_l};
ghost use Rattle.tcl_format.specs.Specifiers.{radix_of, conversion_of, made_of, closed, specified};

use tcl_text::limit::MOST_BYTES;

/// The greatest width.
pub const MOST_WIDTH: usize = 9999;

/// How a specifier pads.
#[derive(Clone, Copy, Debug)]
pub struct Flags {
    /// `-`: what is written stands first, and blanks behind it.
    pub left: bool,
    /// `0`: numbers are padded with zeros behind their sign.
    pub zeros: bool,
    /// `+`: a decimal number that isn't negative has a sign too.
    pub plus: bool,
}

/// The base in which the 64 bits of an integer are written.
#[derive(Clone, Copy, Debug)]
pub enum Radix {
    /// `b`
    Binary,
    /// `o`
    Octal,
    /// `x`
    Hexadecimal,
    /// `X`
    UpperHexadecimal,
}

/// As what a value is written.
#[derive(Clone, Copy, Debug)]
pub enum Kind {
    /// `d`, `i`: an integer in decimal.
    Decimal,
    /// `x`, `X`, `o`, `b`: the 64 bits of an integer.
    Pattern(Radix),
    /// `c`: the character of an integer.
    Character,
    /// `s`: a text.
    Text,
}

/// What closes a specifier.
#[derive(Clone, Copy, Debug)]
pub enum Conversion {
    /// `%`: a percent sign.
    Percent,
    /// A value of this kind.
    Value(Kind),
}

/// How a value is to be written.
#[derive(Clone, Copy, Debug)]
pub struct Specifier {
    pub flags: Flags,
    /// In characters, at most [`MOST_WIDTH`].
    pub width: usize,
    /// The most characters of a text, or the least digits of a number.
    pub precision: Option<usize>,
    pub conversion: Conversion,
}

/// The first character of a text, and what follows it.
pub(crate) fn first(text: &str) -> Option<(char, &str)>
    ensures { MatchOption result (chars text.now ≡ [])
        (λ found. chars text.now ≡ found.0 ∷ chars found.1.now) }
{
    let mut characters = text.chars();
    let letter = characters.next()?;
    Some((letter, characters.as_str()))
}

/// Whether a character is a flag.
fn is_flag(letter: char) -> bool
    ensures { result ≡ is_flag letter }
{
    letter == '-' || letter == '0' || letter == '+'
}

impl Flags {
    /// No flag.
    fn none() -> Flags
        ensures { result ≡ no_flags }
    {
        Flags {
            left: false,
            zeros: false,
            plus: false,
        }
    }

    /// These flags and that of a character.
    fn with(self, letter: char) -> Flags
        ensures { result ≡ with_flag self letter }
    {
        Flags {
            left: self.left || letter == '-',
            zeros: self.zeros || letter == '0',
            plus: self.plus || letter == '+',
        }
    }
}

/// The flags with which a text begins, and what follows them.
fn read_flags(text: &str) -> (Flags, &str)
    ensures { (result.0, chars result.1.now) ≡ read_flags no_flags (chars text.now) }
{
    let mut flags = Flags::none();
    let mut rest = text;
    'flags: while let Some((letter, behind)) = first(rest) {
        if !is_flag(letter) {
            return (flags, rest);
        }
        flags = flags.with(letter);
        rest = behind;
    }
    (flags, rest)
}

/// The number of the digits with which a text begins, at most [`MOST_BYTES`], and what follows
/// them.
fn read_number(text: &str) -> (usize, &str)
    ensures { (result.0, chars result.1.now) ≡ capped (read_number 0 (chars text.now)) }
{
    let mut number = 0;
    let mut rest = text;
    'digits: while let Some((letter, behind)) = first(rest) {
        if !letter.is_ascii_digit() {
            return (number, rest);
        }
        number = (number * 10 + (letter as usize - '0' as usize)).min(MOST_BYTES);
        rest = behind;
    }
    (number, rest)
}

/// The precision with which a text begins, and what follows it.
fn read_precision(text: &str) -> (Option<usize>, &str)
    ensures { (result.0, chars result.1.now) ≡ read_precision (chars text.now) }
{
    let Some((letter, behind)) = first(text) else {
        return (None, text);
    };
    if letter != '.' {
        return (None, text);
    }
    let (number, rest) = read_number(behind);
    (Some(number), rest)
}

/// What follows the `l` with which a text may begin.
fn behind_l(text: &str) -> &str
    ensures { chars result.now ≡ behind_l (chars text.now) }
{
    let Some((letter, behind)) = first(text) else {
        return text;
    };
    if letter == 'l' { behind } else { text }
}

/// What follows the `l` or `ll` with which a text may begin.
fn behind_ls(text: &str) -> &str
    ensures { chars result.now ≡ behind_l (behind_l (chars text.now)) }
{
    let Some((letter, behind)) = first(text) else {
        return text;
    };
    if letter == 'l' {
        behind_l(behind)
    } else {
        text
    }
}

/// The base of a conversion.
fn radix_of(letter: char) -> Option<Radix>
    ensures { result ≡ radix_of letter }
{
    match letter {
        'x' => Some(Radix::Hexadecimal),
        'X' => Some(Radix::UpperHexadecimal),
        'o' => Some(Radix::Octal),
        'b' => Some(Radix::Binary),
        _ => None,
    }
}

/// The conversion of a character.
fn conversion_of(letter: char) -> Option<Conversion>
    ensures { result ≡ conversion_of letter }
{
    match letter {
        'd' | 'i' => Some(Conversion::Value(Kind::Decimal)),
        's' => Some(Conversion::Value(Kind::Text)),
        'c' => Some(Conversion::Value(Kind::Character)),
        '%' => Some(Conversion::Percent),
        _ => match radix_of(letter) {
            Some(radix) => Some(Conversion::Value(Kind::Pattern(radix))),
            None => None,
        },
    }
}

/// A specifier of its parts, where there is a conversion and the width is not too great.
fn made_of(
    flags: Flags,
    width: usize,
    precision: Option<usize>,
    conversion: Option<Conversion>,
) -> Option<Specifier>
    ensures { result ≡ made_of flags width precision conversion }
{
    let conversion = conversion?;
    if width > MOST_WIDTH {
        return None;
    }
    Some(Specifier {
        flags,
        width,
        precision,
        conversion,
    })
}

/// The specifier that the next character closes, and what follows it.
fn closed(
    flags: Flags,
    width: usize,
    precision: Option<usize>,
    text: &str,
) -> (Option<Specifier>, &str)
    ensures { (result.0, chars result.1.now) ≡ closed flags width precision (chars text.now) }
{
    let Some((letter, behind)) = first(text) else {
        return (None, text);
    };
    (
        made_of(flags, width, precision, conversion_of(letter)),
        behind,
    )
}

/// Whether a character is no flag, digit, point or `l`, so that it closes a specifier or is wrong.
fn is_last(letter: char) -> bool
    ensures { IsTrue result ↔ ((57 < letter) × (letter ≢ 108)) }
{
    letter > '9' && letter != 'l'
}

/// The specifier that the first character closes, and what follows it, or none where another part
/// stands first.
fn read_bare(text: &str) -> Option<(Option<Specifier>, &str)>
    ensures { IfSome result (λ p. (p.0, chars p.1.now) ≡ specified (chars text.now)) }
{
    let (letter, behind) = first(text)?;
    if !is_last(letter) {
        return None;
    }
    let conversion = conversion_of(letter);
    Some((made_of(Flags::none(), 0, None, conversion), behind))
}

/// The specifier with which a text begins, which stands behind a `%`, or none; and what follows the
/// character that closes it or that can't stand in it.
pub fn read_specifier(text: &str) -> (Option<Specifier>, &str)
    ensures { (result.0, chars result.1.now) ≡ specified (chars text.now) }
{
    if let Some(read) = read_bare(text) {
        return read;
    }
    let (flags, behind_flags) = read_flags(text);
    let (width, behind_width) = read_number(behind_flags);
    let (precision, behind_precision) = read_precision(behind_width);
    closed(flags, width, precision, behind_ls(behind_precision))
}
