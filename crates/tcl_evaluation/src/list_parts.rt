//! Parts of lists that are at hand: `[lrange $l 1 end]` as a word, of which no list is made yet.
ghost use Rattle.std.specs.Prelude.{◌≡◌, map, true, List, IfSome};
ghost use Rattle.tcl_core.specs.Paths.{Text};
ghost use Rattle.tcl_language.specs.Instructions.{fits};
ghost use Rattle.tcl_prepared.specs.Views.{seen_word};
ghost use Rattle.tcl_value.specs.Limits.{IsWithin};
ghost use Rattle.tcl_value.specs.Writing.{write};
ghost use Rattle.tcl_evaluation.specs.Hands.{AllStand, EndsIn, IsAnswer, IsAnsweredIn};

use crate::hands::{bracket_of, value_at_hand};
use std::alloc::Global;
use tcl_calls::lookup::builtin_named;
use tcl_frames::frames::Frames;
use tcl_lists::commands::lrange_part;
use tcl_prepared::kinds::BracketKind;
use tcl_prepared::prepared::{Prepared, PreparedCommand, PreparedPart, PreparedWord};
use tcl_run::steps::frames_seen;
use tcl_text::integer::Integers;
use tcl_tree::builtin::Builtin;
use tcl_tree::tree::{Place, Tree};
use tcl_value::list_part::ListPart;
use tcl_value::value::Value;

/// Whether a script has the words of an `lrange`, of which the second is no literal: that would be
/// the name of a subcommand, as of `string` or `dict`. A hint, of which contracts say nothing.
fn may_be_lrange(script: &Prepared) -> bool {
    let [PreparedCommand::AtHand(words)] = script.commands() else {
        return false;
    };
    match words.as_slice() {
        [_, list, _, _] => !matches!(list, PreparedWord::Literal(_)),
        _ => false,
    }
}

/// Whether a word may be a part of a list that is at hand. A hint, of which contracts say nothing.
#[inline]
pub(crate) fn may_be_part(word: &PreparedWord) -> bool {
    match word {
        PreparedWord::Lone(PreparedPart::Bracket(bracket)) => {
            matches!(bracket.kind(), BracketKind::Answer) && may_be_lrange(bracket.script())
        }
        _ => false,
    }
}

/// A part whose text is short enough for a value.
fn short_part(part: ListPart) -> Option<ListPart>
    ensures { IfSome result (λ short. (short ≡ part) × IsWithin (write part)) }
{
    if part.is_within() { Some(part) } else { None }
}

/// The elements that a command gives, if it is `lrange`.
fn part_of(alloc: Global, style: Integers, builtin: Builtin, args: &[Value]) -> Option<ListPart>
    ensures answer { IfSome result (λ part. IsAnswer style builtin args.now (write part)) }
    ensures short { IfSome result (λ part. fits (write part) ≡ true) }
{
    match builtin {
        Builtin::Lrange => short_part(lrange_part(alloc, style, args).ok()?),
        _ => None,
    }
}

/// The same of three words that are at hand over these frames.
fn part_of_words(
    frames: &Frames,
    alloc: Global,
    style: Integers,
    builtin: Builtin,
    words: &[PreparedWord],
) -> Option<ListPart>
    ensures answer { IfSome result (λ part. (args : List Text) ×
        AllStand frames.now.frames (map seen_word words.now) args ×
        IsAnswer style builtin args (write part)) }
    ensures short { IfSome result (λ part. fits (write part) ≡ true) }
{
    let [first, second, third] = words else {
        return None;
    };
    let a = value_at_hand(frames, alloc, first)?;
    let b = value_at_hand(frames, alloc, second)?;
    let c = value_at_hand(frames, alloc, third)?;
    part_of(alloc, style, builtin, &[a, b, c])
}

/// The elements that a script gives which is one `lrange` whose words are at hand. Nothing is
/// counted: [`count_sum`](crate::sums::count_sum) does that.
fn part_of_script(tree: &Tree, alloc: Global, place: Place, script: &Prepared) -> Option<ListPart>
    ensures answer { IfSome result (λ part. IsAnsweredIn tree.now place script.now (write part)) }
    ensures short { IfSome result (λ part. fits (write part) ≡ true) }
{
    let [command] = script.commands() else {
        return None;
    };
    let PreparedCommand::AtHand(words) = command else {
        return None;
    };
    let None = script.fault() else {
        return None;
    };
    let [first, args @ ..] = words.as_slice() else {
        return None;
    };
    if args.len() != 3 {
        return None;
    }
    let PreparedWord::Literal(name) = first else {
        return None;
    };
    name.keeps_limit();
    let builtin = builtin_named(tree, place, name)?;
    let frames = frames_seen(tree, place)?;
    part_of_words(frames, alloc, tree.integers(), builtin, args)
}

/// The elements that a word stands for which is one `lrange` in brackets, whose words are at hand.
pub(crate) fn part_at_hand(
    tree: &Tree,
    alloc: Global,
    place: Place,
    word: &PreparedWord,
) -> Option<ListPart>
    ensures { IfSome result (λ part. EndsIn tree.now place (seen_word word.now) true
        (write part)) }
{
    let bracket = bracket_of(word)?;
    part_of_script(tree, alloc, place, bracket.script())
}
