//! Which commands may be at hand: what they come to may be known without an evaluation. These are
//! hints, of which contracts say nothing: whoever takes one looks at the words.
use crate::prepared::{Prepared, PreparedCommand, PreparedPart, PreparedWord};
use tcl_value::value::Value;

/// The most words of a command that may be at hand, besides its name.
const MOST_WORDS: usize = 4;

/// What may be known of the result of a script in brackets before it is evaluated.
#[derive(Clone, Copy, PartialEq, Eq, Drop)]
pub enum BracketKind {
    /// The script is one `expr` of one word that stands for itself.
    Sum,
    /// It is one command that makes something of its words alone, which are plain.
    Answer,
    /// It is evaluated.
    Other,
}

/// Whether a part is a text or a variable.
fn is_plain_part(part: &PreparedPart) -> bool {
    matches!(part, PreparedPart::Literal(_) | PreparedPart::Variable(_))
}

/// Whether parts are those of one element of an array, whose key is a text or a variable.
fn is_element(parts: &[PreparedPart]) -> bool {
    match parts {
        [PreparedPart::Element(_), key, PreparedPart::EndElement] => is_plain_part(key),
        _ => false,
    }
}

/// Whether a word is made of texts and variables, or is an element of an array, and isn't spread.
fn is_plain(word: &PreparedWord) -> bool {
    match word {
        PreparedWord::Literal(_) | PreparedWord::Name(_) => true,
        PreparedWord::Lone(part) => is_plain_part(part),
        PreparedWord::Parts(parts) => parts.iter().all(is_plain_part) || is_element(parts),
        PreparedWord::Spread(_) => false,
    }
}

/// Whether a word names `expr`.
fn names_expr(word: &Value) -> bool {
    word.is_text(b"expr")
}

/// Whether a word names a command that makes something of its words alone: of lists, or of texts.
fn names_answer(word: &Value) -> bool {
    word.is_text(b"lindex")
        || word.is_text(b"llength")
        || word.is_text(b"lrange")
        || word.is_text(b"list")
        || word.is_text(b"concat")
        || word.is_text(b"string")
}

/// Whether these are the words of a `dict` whose subcommand asks a dict for something.
fn ask_of_dict(name: &Value, args: &[PreparedWord]) -> bool {
    let [PreparedWord::Literal(word), ..] = args else {
        return false;
    };
    name.is_text(b"dict")
        && (word.is_text(b"get") || word.is_text(b"exists") || word.is_text(b"size"))
}

/// Whether a word names a command that changes the variable that its first word names.
pub(crate) fn names_change(word: &Value) -> bool {
    word.is_text(b"set")
        || word.is_text(b"incr")
        || word.is_text(b"append")
        || word.is_text(b"lappend")
}

/// Whether words are `dict` and a subcommand that changes an entry of the variable behind it. It
/// has the name of the command that changes a variable so.
fn name_key_change(command: &Value, subcommand: &Value) -> bool {
    command.is_text(b"dict") && names_change(subcommand)
}

/// Whether the word behind these is to name a variable.
pub(crate) fn want_name(words: &[PreparedWord]) -> bool {
    match words {
        [PreparedWord::Literal(command)] => names_change(command) || command.is_text(b"lset"),
        [
            PreparedWord::Literal(command),
            PreparedWord::Literal(subcommand),
        ] => { name_key_change(command, subcommand) }
        _ => false,
    }
}

/// Whether these are the words of a command that changes a variable, with at most one behind the
/// variable's name, or an entry of what it holds, with one index or key.
pub(crate) fn change_one_variable(words: &[Value]) -> bool {
    match words {
        [command, _] => command.is_text(b"incr"),
        [command, _, _] => names_change(command),
        [command, second, _, _] => {
            command.is_text(b"lset") || command.is_text(b"dict") && second.is_text(b"incr")
        }
        [command, subcommand, _, _, _] => name_key_change(command, subcommand),
        _ => false,
    }
}

/// The kind of a script in brackets that is one command with these words, which may be at hand.
fn kind_of_words(words: &[PreparedWord]) -> BracketKind {
    let [PreparedWord::Literal(name), args @ ..] = words else {
        return BracketKind::Other;
    };
    if !args.iter().all(is_plain) {
        return BracketKind::Other;
    }
    if names_answer(name) || ask_of_dict(name, args) {
        return BracketKind::Answer;
    }
    BracketKind::Other
}

/// The kind of a script in brackets.
pub(crate) fn kind_of(script: &Prepared) -> BracketKind {
    let [command] = script.commands() else {
        return BracketKind::Other;
    };
    match command {
        PreparedCommand::Constant(literals) => match literals.words() {
            [name, _] if names_expr(name) => BracketKind::Sum,
            _ => BracketKind::Other,
        },
        PreparedCommand::AtHand(words) => kind_of_words(words.as_slice()),
        PreparedCommand::General(_) => BracketKind::Other,
    }
}

/// Whether a word is a script in brackets that may be at hand.
fn is_bracket(word: &PreparedWord) -> bool {
    match word {
        PreparedWord::Lone(PreparedPart::Bracket(bracket)) => bracket.kind() != BracketKind::Other,
        _ => false,
    }
}

/// Whether the words of a command may be at hand.
pub(crate) fn may_be_at_hand(words: &[PreparedWord]) -> bool {
    let [PreparedWord::Literal(_), args @ ..] = words else {
        return false;
    };
    let brackets = args.iter().filter(|word| is_bracket(word)).count();
    brackets <= 1
        && args.len() <= MOST_WORDS
        && args.iter().all(|word| is_plain(word) || is_bracket(word))
}
