//! What is at hand: words, commands, and sums and answers in brackets.
ghost use Rattle.std.specs.Prelude.{◌≡◌, ◌≤◌, ◌∷◌, [], true, false, List, map, Ok, IfOk, IfSome};
ghost use Rattle.std.specs.Prelude.{length};
ghost use Rattle.tcl_core.specs.Paths.{Text};
ghost use Rattle.tcl_commands.specs.Kinds.{is_plain};
ghost use Rattle.tcl_language.specs.Instructions.{fits};
ghost use Rattle.tcl_parser.specs.declared.script.Part.TheVariants.{Script};
ghost use Rattle.std.specs.String.{string_bytes};
ghost use Rattle.tcl_frames.specs.Chain.{read};
ghost use Rattle.tcl_language.specs.Scripts.{element_text};
ghost use Rattle.tcl_prepared.specs.Views.{seen_part, seen_word};
ghost use Rattle.tcl_evaluation.specs.Hands.{AllStand, ElementStands, EndsIn, IsAnswer};
ghost use Rattle.tcl_evaluation.specs.Hands.{IsAnsweredIn, IsCountedIn, IsSumIn, PartAdds};
ghost use Rattle.tcl_evaluation.specs.Hands.{PartStands, PartsStand, StandsFor, StandsPlainly};
ghost use Rattle.tcl_evaluation.specs.Hands.{one_of};

use itoa::Buffer;
use std::alloc::{AllocError, Global};
use tcl_calls::expressions::{expression_of_words, number_at};
use tcl_calls::lookup::builtin_named;
use tcl_commands::dicts::dict_answer;
use tcl_commands::texts::string_value;
use tcl_frames::frames::Frames;
use tcl_lists::commands::{list, llength, lrange};
use tcl_lists::indexes::lindex;
use tcl_lists::joining::concat;
use tcl_prepared::kinds::BracketKind;
use tcl_prepared::prepared::{Bracket, Prepared, PreparedCommand, PreparedPart, PreparedWord};
use tcl_run::steps::{frames_seen, known_short};
use tcl_text::integer::Integers;
use tcl_text::limit::MOST_BYTES;
use tcl_text::text::Text;
use tcl_tree::builtin::Builtin;
use tcl_tree::tree::{Place, Tree};
use tcl_value::value::Value;

/// Whether a built-in command evaluates nothing, and asks neither another interpreter nor the host.
pub fn is_plain(builtin: Builtin) -> bool
    ensures { result ≡ is_plain builtin }
{
    match builtin {
        Builtin::Uplevel | Builtin::Eval | Builtin::Catch | Builtin::Try => false,
        Builtin::Foreach | Builtin::Lmap | Builtin::Dict | Builtin::Switch => false,
        Builtin::Expr | Builtin::If | Builtin::While | Builtin::For => false,
        Builtin::Rename | Builtin::Interp => false,
        Builtin::Open | Builtin::Close | Builtin::Gets | Builtin::Puts => false,
        Builtin::Read | Builtin::Eof | Builtin::Flush | Builtin::Source => false,
        _ => true,
    }
}

/// The room that a text has at first which is put together, in bytes, beside what is known of it:
/// as much as the allocator of the C library gives at the least.
pub(crate) const TEXT_ROOM: usize = 24;

/// Whether a part is a text or a variable.
fn is_plain_part(part: &PreparedPart) -> bool {
    matches!(part, PreparedPart::Literal(_) | PreparedPart::Variable(_))
}

/// Adds what a part stands for to a text, where it is a text or a variable of the current frame.
fn add_part(frames: &Frames, alloc: Global, part: &PreparedPart, text: &mut String) -> Option<()>
    ensures { IfSome result (λ _. PartAdds frames.now.frames (seen_part part.now)
        (string_bytes text.old) (string_bytes text.new)) }
{
    match part {
        PreparedPart::Literal(more) => text.push_str(more.as_str()).ok(),
        PreparedPart::Variable(name) => frames.scalar_near(name)?.write_to(alloc, text).ok(),
        _ => None,
    }
}

/// The room, in bytes, that a text has at first which is put together of parts: that of the first
/// where it is a variable, and some for the others. A hint, of which contracts say nothing.
fn room_for(frames: &Frames, parts: &[PreparedPart]) -> usize {
    match parts.first() {
        Some(PreparedPart::Variable(name)) => match frames.scalar_near(name) {
            Some(value) => value.text_len() + TEXT_ROOM,
            None => TEXT_ROOM,
        },
        _ => TEXT_ROOM,
    }
}

/// The text that parts stand for over these frames, one behind the other, where each of them is a
/// text or a variable of the current one, and it has no more bytes than these. The room is what it
/// has at first, in bytes.
pub(crate) fn text_at_hand(
    frames: &Frames,
    alloc: Global,
    parts: &[PreparedPart],
    room: usize,
    most: usize,
) -> Option<String>
    ensures stands { IfSome result (λ text. PartsStand frames.now.frames (map seen_part parts.now)
        (string_bytes text)) }
    ensures short { IfSome result (λ text. length (string_bytes text) ≤ most) }
{
    if !parts.iter().all(is_plain_part) {
        return None;
    }
    let mut text = String::with_capacity(alloc, room).ok()?;
    'parts: for part in parts {
        add_part(frames, alloc, part, &mut text)?;
        if text.len() > most {
            return None;
        }
    }
    Some(text)
}

/// What parts stand for over these frames, one behind the other, where each of them is a text or a
/// variable of the current one.
fn parts_at_hand(frames: &Frames, alloc: Global, parts: &[PreparedPart]) -> Option<Value>
    ensures { IfSome result (λ value. PartsStand frames.now.frames (map seen_part parts.now)
        value) }
{
    let text = text_at_hand(frames, alloc, parts, room_for(frames, parts), MOST_BYTES)?;
    Value::from_text(Text::from_string(alloc, text).ok()?).ok()
}

/// The room that the name of an element has at first, in bytes.
const NAME_ROOM: usize = 48;

/// What a part stands for over these frames, where it is a text or a variable of the current one.
fn part_at_hand(frames: &Frames, part: &PreparedPart) -> Option<Value>
    ensures { IfSome result (λ value. PartStands frames.now.frames (seen_part part.now) value) }
{
    match part {
        PreparedPart::Literal(text) => Value::from_text(text.clone().ok()?).ok(),
        PreparedPart::Variable(name) => frames.scalar_near(name)?.clone().ok(),
        _ => None,
    }
}

/// The name of an element of an array, `a(k)`.
fn element_name(alloc: Global, array: &str, key: &Value) -> Result<Text, AllocError>
    ensures { IfOk result (λ name. name ≡ element_text array.now key.now) }
{
    let mut name = String::with_capacity(alloc, NAME_ROOM)?;
    name.push_str(array)?;
    name.push_str("(")?;
    key.write_to(alloc, &mut name)?;
    name.push_str(")")?;
    Text::from_string(alloc, name)
}

/// What the variable of a name, or the element, holds over these frames.
fn held_at_hand(frames: &Frames, name: &Text) -> Option<Value>
    ensures { IfSome result (λ value. read frames.now.frames name.now ≡ Ok value) }
{
    frames.get(name).ok()?.clone().ok()
}

/// What an element of an array holds over these frames, where the key is kept as a text or as a
/// number. This takes no memory.
fn element_by_key<'a>(frames: &'a Frames, array: &str, key: &Value) -> Option<&'a Value>
    ensures { IfSome result (λ value. read frames.now.frames (element_text array.now key.now)
        ≡ Ok value.now) }
{
    if let Some(text) = key.as_text() {
        return frames.element(array, text.as_str());
    }
    let number = key.number()?;
    frames.element(array, Buffer::new().format(number))
}

/// What an element of an array holds over these frames.
fn held_element(frames: &Frames, alloc: Global, array: &str, key: &Value) -> Option<Value>
    ensures { IfSome result (λ value. read frames.now.frames (element_text array.now key.now)
        ≡ Ok value) }
{
    if let Some(value) = element_by_key(frames, array, key) {
        return value.clone().ok();
    }
    let name = element_name(alloc, array, key).ok()?;
    held_at_hand(frames, &name)
}

/// What parts stand for over these frames, where they are those of one element of an array, whose
/// key is a text or a variable of the current one.
fn element_at_hand(frames: &Frames, alloc: Global, parts: &[PreparedPart]) -> Option<Value>
    ensures { IfSome result (λ value. ElementStands frames.now.frames (map seen_part parts.now)
        value) }
{
    let [first, second, third] = parts else {
        return None;
    };
    let PreparedPart::Element(array) = first else {
        return None;
    };
    let PreparedPart::EndElement = third else {
        return None;
    };
    let key = known_short(part_at_hand(frames, second)?);
    held_element(frames, alloc, array.as_str(), &key)
}

/// Whether a word begins as an element of an array does. A hint, of which contracts say nothing.
fn may_be_element(word: &PreparedWord) -> bool {
    match word {
        PreparedWord::Parts(parts) => {
            matches!(parts.as_slice().first(), Some(PreparedPart::Element(_)))
        }
        _ => false,
    }
}

/// What a word stands for over these frames, where it is an element of an array.
fn element_word_at_hand(frames: &Frames, alloc: Global, word: &PreparedWord) -> Option<Value>
    ensures { IfSome result (λ value. StandsFor frames.now.frames (seen_word word.now) value) }
{
    let PreparedWord::Parts(parts) = word else {
        return None;
    };
    Some(known_short(element_at_hand(frames, alloc, parts.as_slice())?))
}

/// What a word stands for over these frames, where its parts are texts and variables of the current
/// one.
fn plain_word_at_hand(frames: &Frames, alloc: Global, word: &PreparedWord) -> Option<Value>
    ensures { IfSome result (λ value. StandsPlainly frames.now.frames (seen_word word.now) value) }
{
    let value = match word {
        PreparedWord::Literal(value) => value.clone().ok()?,
        PreparedWord::Name(name) => name.value().ok()?,
        PreparedWord::Lone(PreparedPart::Variable(name)) => {
            frames.scalar_near(name)?.clone().ok()?
        }
        PreparedWord::Parts(parts) => parts_at_hand(frames, alloc, parts.as_slice())?,
        _ => return None,
    };
    Some(known_short(value))
}

/// What a word stands for over these frames, where its parts are texts and variables of the current
/// one, or it is an element of an array.
pub(crate) fn value_at_hand(frames: &Frames, alloc: Global, word: &PreparedWord) -> Option<Value>
    ensures { IfSome result (λ value. StandsFor frames.now.frames (seen_word word.now) value) }
{
    if may_be_element(word) {
        return element_word_at_hand(frames, alloc, word);
    }
    plain_word_at_hand(frames, alloc, word)
}

/// What a word stands for in the interpreter, where its parts are texts and variables of the
/// current frame, or it is an element of an array.
pub(crate) fn word_at_hand(
    tree: &Tree,
    alloc: Global,
    place: Place,
    word: &PreparedWord,
) -> Option<Value>
    ensures { IfSome result (λ value. EndsIn tree.now place (seen_word word.now) false value) }
{
    value_at_hand(frames_seen(tree, place)?, alloc, word)
}

/// The result of a script that is one `expr` of one word, where that is an expression of numbers
/// at hand. Nothing is counted: [`count_sum`](crate::sums::count_sum) does that.
pub fn sum_at_hand(tree: &Tree, alloc: Global, place: Place, script: &Prepared) -> Option<Value>
    ensures at_hand { IfSome result (λ sum. IsSumIn tree.now place script.now sum) }
    ensures short { IfSome result (λ sum. fits sum ≡ true) }
{
    let [command] = script.commands() else {
        return None;
    };
    let PreparedCommand::Constant(literals) = command else {
        return None;
    };
    if script.fault().is_some() {
        return None;
    }
    let [word, args @ ..] = literals.words() else {
        return None;
    };
    if args.len() != 1 {
        return None;
    }
    let Builtin::Expr = builtin_named(tree, place, word)? else {
        return None;
    };
    let style = tree.integers();
    let kept = expression_of_words(tree, alloc, style, args)?;
    let number = number_at(tree, place, style, &kept)?;
    Some(known_short(Value::from_int(number)))
}

/// What a command gives that makes something of its words alone, if it is one of those and refuses
/// none of them.
fn answer_of(alloc: Global, style: Integers, builtin: Builtin, args: &[Value]) -> Option<Value>
    ensures { IfSome result (λ value. IsAnswer style builtin args.now value) }
{
    match builtin {
        Builtin::Llength => llength(alloc, args).ok(),
        Builtin::Lindex => lindex(alloc, style, args).ok(),
        Builtin::Lrange => lrange(alloc, style, args).ok(),
        Builtin::List => list(alloc, args).ok(),
        Builtin::Concat => concat(alloc, args).ok(),
        Builtin::Dict => dict_answer(alloc, args),
        Builtin::String => string_value(alloc, style, args).ok(),
        _ => None,
    }
}

/// Whether a word is one variable.
fn is_variable(word: &PreparedWord) -> bool {
    matches!(word, PreparedWord::Lone(PreparedPart::Variable(_)))
}

/// What the first word of a command stands for over these frames. None where it is a variable whose
/// text the command would read as a list anew: the answer isn't made at once then, so that the
/// variable keeps its list.
fn first_at_hand(
    frames: &Frames,
    alloc: Global,
    builtin: Builtin,
    word: &PreparedWord,
) -> Option<Value>
    ensures { IfSome result (λ value. StandsFor frames.now.frames (seen_word word.now) value) }
{
    let value = value_at_hand(frames, alloc, word)?;
    let reads = matches!(
        builtin,
        Builtin::Llength | Builtin::Lindex | Builtin::Lrange
    );
    if value.wants_list() && reads && is_variable(word) {
        return None;
    }
    Some(value)
}

/// The same of the second word, which `dict` reads as a dict.
fn second_at_hand(
    frames: &Frames,
    alloc: Global,
    builtin: Builtin,
    word: &PreparedWord,
) -> Option<Value>
    ensures { IfSome result (λ value. StandsFor frames.now.frames (seen_word word.now) value) }
{
    let value = value_at_hand(frames, alloc, word)?;
    if matches!(builtin, Builtin::Dict) && value.wants_dict() && is_variable(word) {
        return None;
    }
    Some(value)
}

/// The same of one to four words that are at hand over these frames.
fn answer_of_words(
    frames: &Frames,
    alloc: Global,
    style: Integers,
    builtin: Builtin,
    words: &[PreparedWord],
) -> Option<Value>
    ensures { IfSome result (λ value. (args : List Text) ×
        AllStand frames.now.frames (map seen_word words.now) args ×
        IsAnswer style builtin args value) }
{
    match words {
        [first] => {
            let a = first_at_hand(frames, alloc, builtin, first)?;
            answer_of(alloc, style, builtin, &[a])
        }
        [first, second] => {
            let a = first_at_hand(frames, alloc, builtin, first)?;
            let b = second_at_hand(frames, alloc, builtin, second)?;
            answer_of(alloc, style, builtin, &[a, b])
        }
        [first, second, third] => {
            let a = first_at_hand(frames, alloc, builtin, first)?;
            let b = second_at_hand(frames, alloc, builtin, second)?;
            let c = value_at_hand(frames, alloc, third)?;
            answer_of(alloc, style, builtin, &[a, b, c])
        }
        [first, second, third, fourth] => {
            let a = first_at_hand(frames, alloc, builtin, first)?;
            let b = second_at_hand(frames, alloc, builtin, second)?;
            let c = value_at_hand(frames, alloc, third)?;
            let d = value_at_hand(frames, alloc, fourth)?;
            answer_of(alloc, style, builtin, &[a, b, c, d])
        }
        _ => None,
    }
}

/// The result of a script that is one command that makes something of its words alone, where these
/// are at hand. Nothing is counted: [`count_sum`](crate::sums::count_sum) does that.
fn answer_at_hand(tree: &Tree, alloc: Global, place: Place, script: &Prepared) -> Option<Value>
    ensures { IfSome result (λ value. IsAnsweredIn tree.now place script.now value) }
{
    let [command] = script.commands() else {
        return None;
    };
    let PreparedCommand::AtHand(words) = command else {
        return None;
    };
    let None = script.fault() else {
        return None;
    };
    let [first, args @ ..] = words.as_slice() else {
        return None;
    };
    let PreparedWord::Literal(name) = first else {
        return None;
    };
    name.keeps_limit();
    let builtin = builtin_named(tree, place, name)?;
    let frames = frames_seen(tree, place)?;
    answer_of_words(frames, alloc, tree.integers(), builtin, args)
}

/// The result of a script in brackets that is a sum or an answer at hand, as its kind says.
pub fn counted_at_hand(
    tree: &Tree,
    alloc: Global,
    place: Place,
    kind: BracketKind,
    script: &Prepared,
) -> Option<Value>
    ensures at_hand { IfSome result (λ value. IsCountedIn tree.now place script.now value) }
    ensures short { IfSome result (λ value. fits value ≡ true) }
{
    match kind {
        BracketKind::Sum => sum_at_hand(tree, alloc, place, script),
        BracketKind::Answer => Some(known_short(answer_at_hand(tree, alloc, place, script)?)),
        BracketKind::Other => None,
    }
}

/// The same. It is inlined, so that of a script that is neither by its kind nothing is looked at.
#[inline]
pub(crate) fn counted_by_kind(
    tree: &Tree,
    alloc: Global,
    place: Place,
    kind: BracketKind,
    script: &Prepared,
) -> Option<Value>
    ensures at_hand { IfSome result (λ value. IsCountedIn tree.now place script.now value) }
    ensures short { IfSome result (λ value. fits value ≡ true) }
{
    match kind {
        BracketKind::Other => None,
        _ => counted_at_hand(tree, alloc, place, kind, script),
    }
}

/// The script in brackets that a word is.
pub(crate) fn bracket_of(word: &PreparedWord) -> Option<&Bracket>
    ensures { IfSome result (λ bracket. seen_word word.now
        ≡ record { parts = Script bracket.now ∷ []; expand = false }) }
{
    match word {
        PreparedWord::Lone(PreparedPart::Bracket(bracket)) => Some(bracket),
        _ => None,
    }
}

/// What a word stands for, and whether it is a sum or an answer in brackets, which isn't counted
/// yet.
pub(crate) fn end_at_hand(
    tree: &Tree,
    alloc: Global,
    place: Place,
    word: &PreparedWord,
) -> Option<(Value, bool)>
    ensures { IfSome result (λ end. EndsIn tree.now place (seen_word word.now) end.1 end.0) }
{
    if let Some(bracket) = bracket_of(word) {
        let value = counted_at_hand(tree, alloc, place, bracket.kind(), bracket.script())?;
        return Some((value, true));
    }
    Some((word_at_hand(tree, alloc, place, word)?, false))
}

/// Whether one of two is told, unless both are.
pub(crate) fn one_of(first: bool, second: bool) -> Option<bool>
    ensures { result ≡ one_of first second }
{
    if first && second {
        None
    } else {
        Some(first || second)
    }
}
