//! How many pieces prepared commands have: what a cache of them counts.
use crate::lists::{pieces_in_values, pieces_in_words};
use crate::prepared::{PreparedCommand, PreparedPart, PreparedWord};
use std::alloc::Global;

/// The pieces of a part: itself, and those of a script in brackets.
fn part_pieces(part: &PreparedPart) -> usize {
    match part {
        PreparedPart::Bracket(bracket) => bracket.script().pieces().saturating_add(1),
        PreparedPart::Literal(_)
        | PreparedPart::Variable(_)
        | PreparedPart::Element(_)
        | PreparedPart::EndElement
        | PreparedPart::Deep(_) => 1,
    }
}

/// Those of parts.
fn parts_pieces(parts: &[PreparedPart]) -> usize {
    let mut pieces: usize = 0;
    'parts: for part in parts {
        pieces = pieces.saturating_add(part_pieces(part));
    }
    pieces
}

/// Those of a word: itself, and its parts'.
pub(crate) fn word_pieces(word: &PreparedWord) -> usize {
    match word {
        PreparedWord::Literal(_) | PreparedWord::Name(_) => 1,
        PreparedWord::Lone(part) => part_pieces(part).saturating_add(1),
        PreparedWord::Parts(parts) | PreparedWord::Spread(parts) => {
            parts_pieces(parts.as_slice()).saturating_add(1)
        }
    }
}

/// Those of words.
fn words_pieces(words: &[PreparedWord]) -> usize {
    let mut pieces: usize = 0;
    'words: for word in words {
        pieces = pieces.saturating_add(word_pieces(word));
    }
    pieces
}

/// Those of the words of a command, and of the lists and dicts that some of them keep.
fn all_pieces(alloc: Global, command: &PreparedCommand) -> usize {
    match command {
        PreparedCommand::Constant(literals) => {
            let words = literals.words();
            words.len().saturating_add(pieces_in_values(alloc, words))
        }
        PreparedCommand::AtHand(words) | PreparedCommand::General(words) => {
            let words = words.as_slice();
            words_pieces(words).saturating_add(pieces_in_words(alloc, words))
        }
    }
}

/// Those of a command: itself, and its words'.
fn command_pieces(alloc: Global, command: &PreparedCommand) -> usize {
    all_pieces(alloc, command).saturating_add(1)
}

/// The pieces of commands: their own number, and their words and parts, with the pieces of what
/// stands in their brackets and of the lists and dicts that literals keep.
pub(crate) fn commands_pieces(alloc: Global, commands: &[PreparedCommand]) -> usize {
    let mut pieces: usize = 0;
    'commands: for command in commands {
        pieces = pieces.saturating_add(command_pieces(alloc, command));
    }
    pieces
}
