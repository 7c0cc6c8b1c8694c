//! Words that are at hand as what is derived from a value: `[lrange $l 1 end]`, of which no list is
//! made yet, and `"$s$x,"`, of which no text is.
ghost use Rattle.std.specs.Prelude.{map, IfSome};
ghost use Rattle.tcl_commands.specs.Derived.{text_of};
ghost use Rattle.tcl_language.specs.Instructions.{fits};
ghost use Rattle.std.specs.Prelude.{◌≡◌, true};
ghost use Rattle.tcl_prepared.specs.Views.{seen_part, seen_word};
ghost use Rattle.tcl_evaluation.specs.Hands.{EndsIn, PartsStand, StandsFor};

use crate::hands::{TEXT_ROOM, text_at_hand};
use crate::list_parts::{may_be_part, part_at_hand};
use std::alloc::Global;
use tcl_commands::derivation::Derived;
use tcl_frames::frames::Frames;
use tcl_frames::variable_name::VariableName;
use tcl_prepared::prepared::{PreparedPart, PreparedWord};
use tcl_run::steps::frames_seen;
use tcl_text::limit::MOST_BYTES;
use tcl_tree::builtin::Builtin;
use tcl_tree::tree::{Place, Tree};

/// Whether a word begins with what the variable of this name holds. A hint, of which contracts say
/// nothing.
fn begins_with(word: &PreparedWord, name: &VariableName) -> bool {
    match word {
        PreparedWord::Parts(parts) => match parts.as_slice().first() {
            Some(PreparedPart::Variable(first)) => first.text() == name.text(),
            _ => false,
        },
        _ => false,
    }
}

/// Whether a word to which a command sets the variable of this name may be derived from what that
/// holds. A hint, of which contracts say nothing.
#[inline]
pub(crate) fn may_be_derived(builtin: Builtin, name: &VariableName, word: &PreparedWord) -> bool {
    matches!(builtin, Builtin::Set) && (may_be_part(word) || begins_with(word, name))
}

/// What parts stand for over these frames, where the first of them is a variable of the current one
/// and those behind it are texts and such variables.
fn longer_of_parts(frames: &Frames, alloc: Global, parts: &[PreparedPart]) -> Option<Derived>
    ensures stands { IfSome result (λ longer.
        PartsStand frames.now.frames (map seen_part parts.now) (text_of longer)) }
    ensures short { IfSome result (λ longer. fits (text_of longer) ≡ true) }
{
    let [first, rest @ ..] = parts else {
        return None;
    };
    let PreparedPart::Variable(name) = first else {
        return None;
    };
    let value = frames.scalar_near(name)?;
    let room = MOST_BYTES - value.text_len();
    let more = text_at_hand(frames, alloc, rest, TEXT_ROOM, room)?;
    Some(Derived::Longer(value.clone().ok()?, more))
}

/// What a word stands for over these frames, where it begins with a variable of the current one,
/// and what is behind that is texts and such variables.
fn longer_at_hand(frames: &Frames, alloc: Global, word: &PreparedWord) -> Option<Derived>
    ensures { IfSome result (λ longer. StandsFor frames.now.frames (seen_word word.now)
        (text_of longer)) }
{
    match word {
        PreparedWord::Parts(parts) => longer_of_parts(frames, alloc, parts.as_slice()),
        _ => None,
    }
}

/// What a word stands for as what is derived from a value, and whether that is an answer in
/// brackets, which isn't counted yet.
pub(crate) fn derived_at_hand(
    tree: &Tree,
    alloc: Global,
    place: Place,
    word: &PreparedWord,
) -> Option<(Derived, bool)>
    ensures { IfSome result (λ end. EndsIn tree.now place (seen_word word.now) end.1
        (text_of end.0)) }
{
    if may_be_part(word) {
        let part = part_at_hand(tree, alloc, place, word)?;
        return Some((Derived::Part(part), true));
    }
    let longer = longer_at_hand(frames_seen(tree, place)?, alloc, word)?;
    Some((longer, false))
}
