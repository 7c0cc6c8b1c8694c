//! Backslash sequences.
ghost use Rattle.std.specs.Prelude.{◌≡◌, ℕ, List, ◌++◌, ◌∷◌, [], ◌+◌, ◌≤◌, ◌<◌, ◌^◌, length, take};
ghost use Rattle.std.specs.Prelude.{drop};
ghost use Rattle.std.specs.Char.{encode_utf8};
ghost use Rattle.std.specs.List.{prefix_len};
ghost use Rattle.tcl_text.specs.Backslash.{escape, escape_by, escape_of, escape_rest, hexadecimal};
ghost use Rattle.tcl_text.specs.Backslash.{is_blank, number_len, number_value, character};

/// The number at the head of a text: the most digits of `base`, no more than `width`, that stand
/// for no more than `greatest`, as their value and what follows them.
fn read_number(text: &str, width: usize, base: u32, greatest: u32) -> (u32, &str)
    requires some_base { 2 ≤ base }
    requires small_base { base ≤ 16 }
    requires small { greatest ≤ 0x10_FFFF }
    ensures value { result.0 ≡ number_value width base greatest text.now }
    ensures rest { result.1.now ≡ drop (number_len width base greatest text.now) text.now }
    ensures small { result.0 ≤ greatest }
    ensures len { length result.1.now + number_len width base greatest text.now ≡ length text.now }
{
    let bytes = text.as_bytes();
    let mut value = 0;
    let mut count = 0;
    'digits: while count < width && count < bytes.len() {
        let Some(digit) = char::from(bytes[count]).to_digit(base) else {
            break;
        };
        let next = value * base + digit;
        if next > greatest {
            break;
        }
        value = next;
        count += 1;
    }
    let (_, rest) = text.split_at(count);
    (value, rest)
}

fn is_blank(byte: u8) -> bool
    ensures { result ≡ is_blank byte }
{
    byte == b' ' || byte == b'\t'
}

/// The text without the spaces and tabs at its head.
fn skip_blanks(text: &str) -> &str
    ensures rest { result.now ≡ drop (prefix_len is_blank text.now) text.now }
{
    let bytes = text.as_bytes();
    let mut count = 0;
    'blanks: while count < bytes.len() && is_blank(bytes[count]) {
        count += 1;
    }
    let (_, rest) = text.split_at(count);
    rest
}

/// The character with this number, or U+FFFD where a surrogate has it.
fn character(number: u32) -> char
    requires { number ≤ 0x10_FFFF }
    ensures { result ≡ character number }
{
    char::from_u32(number).unwrap_or('\u{FFFD}')
}

/// The character that a letter means with the hexadecimal digits after it, and what follows them;
/// the letter itself where there is none.
fn read_hexadecimal(letter: char, text: &str, width: usize, greatest: u32) -> (char, &str)
    requires ascii { letter < 128 }
    requires small { greatest ≤ 0x10_FFFF }
    ensures meaning { encode_utf8 result.0 ≡ (hexadecimal letter width greatest text.now).meaning }
    ensures rest { result.1.now ≡ drop (hexadecimal letter width greatest text.now).taken
        (letter ∷ text.now) }
{
    let (value, rest) = read_number(text, width, 16, greatest);
    if rest.len() == text.len() {
        (letter, rest)
    } else {
        (character(value), rest)
    }
}

/// The character that a backslash means with the text after it, and what of that text follows the
/// sequence, as `Tcl(n)`, rule 9, has it: `\a \b \f \n \r \t \v`; a newline with the spaces and
/// tabs after it is a space; one to three octal digits, up to 255; `x` and one or two hexadecimal
/// digits, `u` and one to four, `U` and one to eight, up to 10FFFF, where a surrogate gives U+FFFD.
/// Any other character, and a letter `x`, `u` or `U` without digits, is itself. At the end of a
/// text the backslash is itself.
pub fn read_escape(text: &str) -> (char, &str)
    ensures meaning { encode_utf8 result.0 ≡ (escape text.now).meaning }
    ensures rest { result.1.now ≡ escape_rest text.now }
{
    let mut chars = text.chars();
    let Some(first) = chars.next() else {
        return ('\\', text);
    };
    let rest = chars.as_str();
    if first.is_digit(8) {
        let (value, rest) = read_number(text, 3, 8, 0xFF);
        return (character(value), rest);
    }
    match first {
        'a' => ('\u{7}', rest),
        'b' => ('\u{8}', rest),
        'f' => ('\u{C}', rest),
        'n' => ('\n', rest),
        'r' => ('\r', rest),
        't' => ('\t', rest),
        'v' => ('\u{B}', rest),
        '\n' => (' ', skip_blanks(rest)),
        'x' => read_hexadecimal('x', rest, 2, 0xFF),
        'u' => read_hexadecimal('u', rest, 4, 0xFFFF),
        'U' => read_hexadecimal('U', rest, 8, 0x10_FFFF),
        other => (other, rest),
    }
}
