//! The forms of a script's text that hold no other: white space, comments, names, words in braces.
ghost use Rattle.std.specs.Prelude.{◌≡◌, ◌∷◌, [], ◌+◌, ◌^◌, ◌<◌, ◌≤◌, ◌==◌, length, true, false};
ghost use Rattle.std.specs.Prelude.{Ok, Err, MatchOption, MatchResult, IfOk, IfSome, IfNone, take};
ghost use Rattle.std.specs.Prelude.{drop};
ghost use Rattle.tcl_parser.specs.Characters.{is_white, is_separator, is_command_end};
ghost use Rattle.tcl_parser.specs.Characters.{is_name_character, is_substitution};
ghost use Rattle.tcl_parser.specs.Runs.{ends_run, run_of, after_run};
ghost use Rattle.tcl_parser.specs.Texts.{EndsWith, begins_with, IsNotAscii, after_ascii};
ghost use Rattle.tcl_parser.specs.Reading.{before, after_white, after_gap, after_command};
ghost use Rattle.tcl_parser.specs.Reading.{word_ends, command_ends, is_expanded, after_name};
ghost use Rattle.tcl_parser.specs.Reading.{in_braces};
ghost use Rattle.tcl_parser.specs.Braces.{read_on, GoesOn};

use crate::fault::Fault;
use tcl_text::backslash::read_escape;

/// Where a run of characters that stand for themselves stands, which says what ends it.
#[derive(Clone, Copy)]
pub enum Run {
    /// A comment.
    Comment,
    /// A word in braces.
    Braces,
    /// The name of a variable in braces.
    VariableName,
    /// The index of an element.
    Index,
    /// A word in quotes.
    Quotes,
    /// A word by itself; the flag says whether it is in brackets.
    Bare(bool),
}

/// White space between words: space, tab, vertical tab, form feed and carriage return.
pub fn is_white(byte: u8) -> bool
    ensures { result ≡ is_white byte }
{
    byte == b' ' || byte == b'\t' || byte == 11 || byte == 12 || byte == b'\r'
}

/// What separates commands: a newline and a semicolon.
pub fn is_separator(byte: u8) -> bool
    ensures { result ≡ is_separator byte }
{
    byte == b'\n' || byte == b';'
}

/// What ends a command: a separator, and in brackets the close bracket.
pub fn is_command_end(inside: bool, byte: u8) -> bool
    ensures { result ≡ is_command_end inside byte }
{
    is_separator(byte) || (inside && byte == b']')
}

/// A letter, a digit or an underscore.
pub fn is_name_character(byte: u8) -> bool
    ensures { result ≡ is_name_character byte }
{
    byte.is_ascii_lowercase() || byte.is_ascii_uppercase() || byte.is_ascii_digit() || byte == b'_'
}

/// Where substitution begins.
fn is_substitution(byte: u8) -> bool
    ensures { result ≡ is_substitution byte }
{
    byte == b'$' || byte == b'[' || byte == b'\\'
}

impl Run {
    /// Whether a byte ends the run.
    fn ends_at(self, byte: u8) -> bool
        ensures { result ≡ ends_run self byte }
    {
        match self {
            Run::Comment => byte == b'\n' || byte == b'\\',
            Run::Braces => byte == b'{' || byte == b'}' || byte == b'\\',
            Run::VariableName => byte == b'}',
            Run::Index => is_substitution(byte) || byte == b')',
            Run::Quotes => is_substitution(byte) || byte == b'"',
            Run::Bare(inside) => {
                is_substitution(byte) || is_white(byte) || is_command_end(inside, byte)
            }
        }
    }
}

/// The run that a text begins with, perhaps an empty one, and what follows it.
pub fn split_run(text: &str, run: Run) -> (&str, &str)
    ensures front { result.0.now ≡ run_of run text.now }
    ensures rest { result.1.now ≡ after_run run text.now }
{
    let bytes = text.as_bytes();
    let mut count = 0;
    'bytes: while count < bytes.len() && !run.ends_at(bytes[count]) {
        count += 1;
    }
    text.split_at(count)
}

/// The ASCII character that a text begins with, and what follows it.
pub fn split_ascii(text: &str) -> Option<(u8, &str)>
    ensures split { MatchOption result (IsNotAscii text.now) (λ x. text.now ≡ x.0 ∷ x.1.now) }
    ensures ascii { IfSome result (λ x. x.0 < 128) }
{
    let bytes = text.as_bytes();
    if bytes.is_empty() || bytes[0] >= 128 {
        return None;
    }
    let (_, rest) = text.split_at(1);
    Some((bytes[0], rest))
}

/// What follows an ASCII character that a text begins with.
pub fn strip_byte(text: &str, byte: u8) -> Option<&str>
    requires { byte < 128 }
    ensures { MatchOption result (begins_with byte text.now ≡ false)
        (λ rest. text.now ≡ byte ∷ rest.now) }
{
    let (first, rest) = split_ascii(text)?;
    if first == byte { Some(rest) } else { None }
}

/// The front of a text, up to a rest that it ends with.
pub fn before<'a>(text: &'a str, rest: &str) -> &'a str
    requires { EndsWith text.now rest.now }
    ensures { result.now ≡ before text.now rest.now }
{
    let (front, _) = text.split_at(text.len() - rest.len());
    front
}

/// What follows white space that a text begins with, as far as one character or a
/// backslash-newline.
fn strip_white(text: &str) -> Option<&str>
    ensures on { IfSome result (λ rest. after_white text.now ≡ after_white rest.now) }
    ensures shorter { IfSome result (λ rest. length rest.now < length text.now) }
    ensures none { IfNone result (after_white text.now ≡ text.now) }
{
    let (first, rest) = split_ascii(text)?;
    if is_white(first) {
        return Some(rest);
    }
    if first != b'\\' {
        return None;
    }
    let after = strip_byte(rest, b'\n')?;
    Some(after)
}

/// What follows the white space that a text begins with. A backslash-newline counts as white.
pub fn skip_white(text: &str) -> &str
    ensures { result.now ≡ after_white text.now }
{
    let mut rest = text;
    'white: while let Some(after) = strip_white(rest) {
        rest = after;
    }
    rest
}

/// What follows the ASCII character that a text begins with, or the text where there is none.
fn skip_ascii(text: &str) -> &str
    ensures { result.now ≡ after_ascii text.now }
{
    match split_ascii(text) {
        Some((_, rest)) => rest,
        None => text,
    }
}

/// What follows a comment and its newline.
fn skip_comment(text: &str) -> &str
    ensures rest { after_gap true text.now ≡ after_gap false result.now }
    ensures shorter { length result.now ≤ length text.now }
{
    let mut rest = text;
    'comment: loop {
        let (_, stop) = split_run(rest, Run::Comment);
        let Some((byte, after)) = split_ascii(stop) else {
            return stop;
        };
        if byte == b'\n' {
            return after;
        }
        rest = skip_ascii(after);
    }
}

/// What follows what may stand before a command, as far as one character, a backslash-newline or a
/// comment.
fn strip_gap(text: &str) -> Option<&str>
    ensures on { IfSome result (λ rest. after_gap false text.now ≡ after_gap false rest.now) }
    ensures shorter { IfSome result (λ rest. length rest.now < length text.now) }
    ensures none { IfNone result (after_gap false text.now ≡ text.now) }
{
    let (first, rest) = split_ascii(text)?;
    if is_white(first) || is_separator(first) {
        return Some(rest);
    }
    if first == b'#' {
        return Some(skip_comment(rest));
    }
    if first != b'\\' {
        return None;
    }
    let after = strip_byte(rest, b'\n')?;
    Some(after)
}

/// What follows the white space, the separators and the comments that a text begins with.
pub fn skip_gap(text: &str) -> &str
    ensures { result.now ≡ after_gap false text.now }
{
    let mut rest = text;
    'gap: while let Some(after) = strip_gap(rest) {
        rest = after;
    }
    rest
}

/// Whether a word that isn't in quotes or braces can't go on: white space, a command's end or the
/// text's end comes.
pub fn word_ends(inside: bool, text: &str) -> bool
    ensures { result ≡ word_ends inside text.now }
{
    match split_ascii(text) {
        None => text.is_empty(),
        Some((first, rest)) => {
            is_white(first)
                || is_command_end(inside, first)
                || (first == b'\\' && strip_byte(rest, b'\n').is_some())
        }
    }
}

/// Whether a command ends, where no white space comes.
pub fn command_ends(inside: bool, text: &str) -> bool
    ensures { result ≡ command_ends inside text.now }
{
    match split_ascii(text) {
        None => text.is_empty(),
        Some((first, _)) => is_command_end(inside, first),
    }
}

/// What follows a command's end, of which a close bracket is left.
pub fn skip_command_end(text: &str) -> &str
    ensures { result.now ≡ after_command text.now }
{
    match split_ascii(text) {
        Some((first, rest)) if is_separator(first) => rest,
        _ => text,
    }
}

/// What follows `{*}`, where it marks the word behind it: it stands directly before that word.
pub fn strip_mark(inside: bool, text: &str) -> Option<&str>
    ensures marks { IfSome result (λ rest. is_expanded inside text.now ≡ true) }
    ensures rest { IfSome result (λ rest. rest.now ≡ drop 3 text.now) }
    ensures none { IfNone result (is_expanded inside text.now ≡ false) }
{
    let rest = strip_byte(text, b'{')?;
    let rest = strip_byte(rest, b'*')?;
    let rest = strip_byte(rest, b'}')?;
    if word_ends(inside, rest) {
        None
    } else {
        Some(rest)
    }
}

/// What follows a character of a name, or two colons, and whether that ends a run of two or more
/// colons. The flag says that such a run stands before the text.
fn strip_name(colons: bool, text: &str) -> Option<(bool, &str)>
    ensures on { IfSome result (λ x. after_name colons text.now ≡ after_name x.0 x.1.now) }
    ensures shorter { IfSome result (λ x. length x.1.now < length text.now) }
    ensures none { IfNone result (after_name colons text.now ≡ text.now) }
{
    let (byte, rest) = split_ascii(text)?;
    if is_name_character(byte) {
        return Some((false, rest));
    }
    if byte != b':' {
        return None;
    }
    if colons {
        return Some((true, rest));
    }
    let rest = strip_byte(rest, b':')?;
    Some((true, rest))
}

/// What follows the name that a text begins with, perhaps an empty one: letters, digits,
/// underscores and runs of two or more colons, as `Tcl(n)`, rule 8, has it.
pub fn skip_name(text: &str) -> &str
    ensures rest { result.now ≡ after_name false text.now }
    ensures ends { EndsWith text.now result.now }
{
    let mut rest = text;
    let mut colons = false;
    'name: while let Some((run, after)) = strip_name(colons, rest) {
        colons = run;
        rest = after;
    }
    rest
}

/// A piece of a word in braces, and what follows it.
pub enum BracePiece<'a> {
    /// The close brace of the word.
    Close(&'a str),
    /// Characters that stand for themselves; then how many braces are open inside the word, and
    /// what follows.
    Characters(&'a str, usize, &'a str),
    /// A backslash-newline with the spaces and tabs after it, which is one space.
    Line(&'a str),
}

/// A piece of a word in braces, from a place in it at which `depth` braces are open inside the
/// word.
///
/// # Errors
/// The text ends inside the word.
pub fn next_in_braces(text: &str, depth: usize) -> Result<BracePiece<'_>, Fault>
    requires { depth + length text.now < 2 ^ 64 }
    ensures reads { MatchResult result
        (λ piece. in_braces false depth text.now ≡ read_on depth piece)
        (λ fault. in_braces false depth text.now ≡ Err fault) }
    ensures goes_on { IfOk result (λ piece. GoesOn depth text.now piece) }
{
    let (run, stop) = split_run(text, Run::Braces);
    if !run.is_empty() {
        return Ok(BracePiece::Characters(run, depth, stop));
    }
    let Some((byte, rest)) = split_ascii(stop) else {
        return Err(Fault::CloseBrace);
    };
    match byte {
        b'}' if depth == 0 => Ok(BracePiece::Close(rest)),
        b'}' => Ok(BracePiece::Characters("}", depth - 1, rest)),
        b'{' => Ok(BracePiece::Characters("{", depth + 1, rest)),
        _ => Ok(backslash_in_braces(stop, rest, depth)),
    }
}

/// What a backslash in a word in braces is, with what follows the backslash.
fn backslash_in_braces<'a>(text: &'a str, rest: &'a str, depth: usize) -> BracePiece<'a>
    requires { text.now ≡ 92 ∷ rest.now }
    ensures reads { in_braces false depth text.now ≡ read_on depth result }
    ensures goes_on { GoesOn depth text.now result }
{
    match strip_byte(rest, b'\n') {
        Some(_) => {
            let (_, after) = read_escape(rest);
            BracePiece::Line(after)
        }
        None => {
            let after = skip_ascii(rest);
            BracePiece::Characters(before(text, after), depth, after)
        }
    }
}
