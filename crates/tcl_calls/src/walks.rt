//! The lists that loops walk through.
ghost use Rattle.std.specs.Prelude.{◌≡◌, ◌+◌, ◌*◌, ◌<◌, ◌==◌, [], ◌∷◌, false, drop, get_or, length};
ghost use Rattle.std.specs.Prelude.{Ok, IfOk, IfErr, IfSome, IsTrue};
ghost use Rattle.std.specs.Prelude.{MatchOption, MatchResult, IsOkAnd};
ghost use Rattle.tcl_core.specs.Paths.{Path};
ghost use Rattle.tcl_language.specs.Control.{is_over, sets_names, sets_walks};
ghost use Rattle.tcl_language.specs.Variables.{is_odd, sets};
ghost use Rattle.tcl_dicts.specs.Dicts as dicts;
ghost use Rattle.tcl_text.specs.Lists.{list_of};
ghost use Rattle.tcl_text.specs.Writing.{fault_message, is_special, has_special};
ghost use Rattle.tcl_value.specs.Texts.{flat};
ghost use Rattle.tcl_run.specs.Ends.{Gave, Interrupts, IsFailure, itself};
ghost use Rattle.tcl_run.specs.Plain.{Steps};
ghost use Rattle.tcl_run.specs.Runs.{IsLevel};
ghost use Rattle.tcl_tree.specs.TreeOf.{Names};
ghost use Rattle.tcl_calls.specs.Walks.{walks_at, IsLoop, IsNoLoop, MisreadsWalk, MisreadsWalks};
ghost use Rattle.tcl_calls.specs.Walks.{ReadsWalk, ReadsWalks, ReadsEntry, MisreadsEntry};
ghost use Rattle.tcl_calls.specs.Walks.{ReadsDictLoop, MisreadsDictLoop, Alone};

use crate::setting::set_variable;
use std::alloc::{AllocError, Global};
use std::marker::Model;
use tcl_dicts::reading::dict_word;
use tcl_frames::variable_name::VariableName;
use tcl_run::failure::{refused, wrong_args};
use tcl_run::interruption::Interruption;
use tcl_run::steps::{read_list, variable_name};
use tcl_text::text::Text;
use tcl_tree::tree::{Place, Tree};
use tcl_value::list::List;
use tcl_value::value::Value;

/// The form of `foreach`.
pub const FOREACH: &str = "foreach varList list ?varList list ...? command";
/// The form of `lmap`.
pub const LMAP: &str = "lmap varList list ?varList list ...? command";
/// The form of `dict for`.
const DICT_FOR: &str = "dict for {keyVar valueVar} dictionary body";

/// The names of the variables that a loop sets, which contracts see as their texts. Each keeps
/// where its variable was found last.
pub struct VariableNames {
    names: NameList,
}

/// How they are kept: one that is a word by itself takes no allocation.
#[derive(Drop)]
enum NameList {
    One(VariableName),
    Several(Vec<VariableName>),
}

impl Drop for VariableNames {
    fn drop(self) {
        let VariableNames { names: _names } = self;
    }
}

impl Model for VariableNames {
    ghost use Rattle.std.specs.Prelude.{List, ℕ};
    ghost use Rattle.tcl_calls.specs.LoopNames.{names_in};

    ghost Value = { List (List ℕ) };

    ghost view = { λ a. names_in a.names };
}

impl VariableNames {
    /// This name alone.
    fn one(name: VariableName) -> VariableNames
        ensures { result ≡ name ∷ [] }
    {
        VariableNames {
            names: NameList::One(name),
        }
    }

    /// The names that the elements of a list are.
    fn new(alloc: Global, list: &List) -> Result<VariableNames, AllocError>
        ensures { IfOk result (λ made. made ≡ list.now) }
    {
        let count = list.len();
        let mut names = Vec::with_capacity(alloc, count)?;
        'names: for index in 0..count {
            let word = list.get(index)?;
            names.push(variable_name(alloc, &word)?)?;
        }
        Ok(VariableNames {
            names: NameList::Several(names),
        })
    }

    /// How many there are.
    fn len(&self) -> usize
        ensures { result ≡ length self.now }
    {
        match &self.names {
            NameList::One(_) => 1,
            NameList::Several(names) => names.len(),
        }
    }

    /// The name at an index.
    fn get(&self, index: usize) -> &VariableName
        requires { index < length self.now }
        ensures { result.now ≡ get_or self.now index result.now }
    {
        match &self.names {
            NameList::One(name) => name,
            NameList::Several(names) => &names[index],
        }
    }

    /// The name that is the only one, where it is known to be that.
    #[inline]
    fn only(&self) -> Option<&VariableName>
        ensures { IfSome result (λ name. self.now ≡ name.now ∷ []) }
    {
        match &self.names {
            NameList::One(name) => Some(name),
            NameList::Several(_) => None,
        }
    }
}

/// The variables that a loop sets at each turn, and the list whose elements it sets them to.
#[derive(Drop)]
pub struct Walk {
    pub names: VariableNames,
    pub elements: List,
}

/// The words of a loop over lists that are read as walks, and its body, if the number of words is
/// that of such a loop. (foreach(n), lmap(n))
#[inline(never)]
pub fn loop_words(args: &[Value]) -> Option<(&[Value], &Value)>
    ensures { MatchOption result (IsNoLoop args.now) (λ x. IsLoop args.now x.0.now x.1.now) }
{
    let [words @ .., body] = args else {
        return None;
    };
    if words.len() < 2 || words.len() % 2 == 1 {
        return None;
    }
    Some((words, body))
}

/// The element behind so many turns of so many elements, and so many more; the empty text where
/// there is none.
fn element_at(list: &List, turns: usize, count: usize, more: usize) -> Result<Value, AllocError>
    ensures { IfOk result (λ value. value ≡ get_or list.now (turns * count + more) []) }
{
    let index = turns.saturating_mul(count).saturating_add(more);
    if index < list.len() {
        return list.get(index);
    }
    Ok(Value::empty())
}

/// Whether a byte is special where lists are written.
fn is_special(byte: u8) -> bool
    ensures { result ≡ is_special byte }
{
    matches!(
        byte,
        b'\t'..=b'\r' | b' ' | b'{' | b'}' | b'[' | b']' | b'$' | b';' | b'"' | b'\\'
    )
}

/// Whether some byte of a text is special where lists are written.
fn has_special(text: &str) -> bool
    ensures { result ≡ has_special text.now }
{
    text.as_bytes().iter().any(|byte| is_special(*byte))
}

/// Whether a text is a word as most names are, which is a list of itself alone: it isn't empty,
/// doesn't begin with `#`, and no byte is special.
fn is_word(text: &str) -> bool
    ensures { IsTrue result → list_of text.now ≡ Ok (text.now ∷ []) }
{
    match text.as_bytes() {
        [] => false,
        [first, ..] => *first != b'#' && !has_special(text),
    }
}

/// The text of a word that is a list of itself alone, where that is told without reading it as a
/// list.
fn only_element(word: &Value) -> Option<&Text>
    ensures { IfSome result (λ text. list_of word.now ≡ Ok (text.now ∷ [])) }
{
    let text = word.as_text()?;
    if is_word(text.as_str()) {
        return Some(text);
    }
    None
}

/// The names that a word is, read as a list.
fn read_names(alloc: Global, word: &Value) -> Result<VariableNames, Interruption>
    ensures { Gave fault_message (list_of word.now) result }
{
    if let Some(text) = only_element(word) {
        return Ok(VariableNames::one(VariableName::new(text.clone()?)));
    }
    let mut word = word.clone()?;
    let list = read_list(alloc, &mut word)?;
    Ok(VariableNames::new(alloc, &list)?)
}

/// Reads two words as a walk.
fn read_walk(
    alloc: Global,
    form: &str,
    names: &Value,
    elements: &Value,
) -> Result<Walk, Interruption>
    ensures read { IfOk result (ReadsWalk names.now elements.now) }
    ensures refused { IfErr result
        (λ i. Interrupts i (MisreadsWalk form.now names.now elements.now)) }
{
    let names = read_names(alloc, names)?;
    let mut elements = elements.clone()?;
    let elements = read_list(alloc, &mut elements)?;
    if names.len() == 0 {
        return Err(wrong_args(alloc, form));
    }
    Ok(Walk { names, elements })
}

/// Reads pairs of words as walks, from the left, for a command of a form. (foreach(n), lmap(n))
///
/// # Errors
/// The first word that is no list; that a list of variables has none; want of memory.
#[inline(never)]
pub fn read_walks(alloc: Global, form: &str, words: &[Value]) -> Result<Vec<Walk>, Interruption>
    requires { is_odd words.now ≡ false }
    ensures read { IfOk result (λ walks. ReadsWalks words.now walks.items) }
    ensures refused { IfErr result (λ i. Interrupts i (MisreadsWalks form.now words.now)) }
{
    let mut walks = Vec::new(alloc);
    let mut left = words;
    'words: while let [names, elements, rest @ ..] = left {
        walks.push(read_walk(alloc, form, names, elements)?)?;
        left = rest;
    }
    Ok(walks)
}

/// Reads two names and a dict as a walk.
fn read_entries(alloc: Global, names: &Value, dict: &Value) -> Result<Walk, Interruption>
    ensures read { IfOk result (ReadsEntry names.now dict.now) }
    ensures refused { IfErr result (λ i. Interrupts i (MisreadsEntry names.now dict.now)) }
{
    let mut names = names.clone()?;
    let names = read_list(alloc, &mut names)?;
    if names.len() != 2 {
        return Err(wrong_args(alloc, DICT_FOR));
    }
    let elements = read_dict(alloc, dict)?;
    let names = VariableNames::new(alloc, &names)?;
    Ok(Walk { names, elements })
}

/// Reads the words of a loop over a dict: its one walk, through the keys, each with its value
/// behind it, and its body. A repeated key has its first place and its last value. (dict(n))
///
/// # Errors
/// 241 of the number of words; 101 to 104 of the names, and 241 where they aren't two; 101 to 104
/// and 121 of the dict; want of memory.
#[inline(never)]
pub fn read_dict_loop(alloc: Global, args: &[Value]) -> Result<(Vec<Walk>, &Value), Interruption>
    ensures read { IfOk result (λ x. ReadsDictLoop args.now x.0.items x.1.now) }
    ensures refused { IfErr result (λ i. Interrupts i (MisreadsDictLoop args.now)) }
{
    match args {
        [names, dict, body] => {
            let walk = read_entries(alloc, names, dict)?;
            Ok((alone(alloc, walk)?, body))
        }
        _ => Err(wrong_args(alloc, DICT_FOR)),
    }
}

/// The walks of a loop that has this one alone.
fn alone(alloc: Global, walk: Walk) -> Result<Vec<Walk>, AllocError>
    ensures { IfOk result (λ walks. walks.items ≡ walk ∷ []) }
{
    let mut walks = Vec::new(alloc);
    walks.push(walk)?;
    Ok(walks)
}

/// The keys of a dict, each with its value behind it.
fn read_dict(alloc: Global, dict: &Value) -> Result<List, Interruption>
    ensures { MatchResult result
        (λ list. IsOkAnd (dicts.dict_word dict.now) (λ entries. list ≡ flat entries))
        (λ i. Interrupts i (IsFailure itself (dicts.dict_word dict.now))) }
{
    match dict_word(alloc, dict) {
        Ok(dict) => Ok(dict.to_list(alloc)?),
        Err(refusal) => Err(refused(alloc, refusal)),
    }
}

/// The variable and the list of a loop that has one of each, as most loops do.
#[inline]
fn only_walk(walks: &[Walk]) -> Option<(&VariableName, &List)>
    ensures { IfSome result (λ x. Alone walks.now x.0.now x.1.now) }
{
    let [walk] = walks else {
        return None;
    };
    let name = walk.names.only()?;
    Some((name, &walk.elements))
}

/// Whether none of these lists has elements left after so many turns.
#[inline(never)]
fn are_over(walks: &[Walk], turns: usize) -> bool
    ensures { result ≡ is_over (walks_at turns walks.now) }
{
    'walks: for walk in walks {
        if turns.saturating_mul(walk.names.len()) < walk.elements.len() {
            return false;
        }
    }
    true
}

/// Whether no list has elements left after so many turns.
#[inline]
pub fn is_over(walks: &[Walk], turns: usize) -> bool
    ensures { result ≡ is_over (walks_at turns walks.now) }
{
    match only_walk(walks) {
        Some((_, list)) => list.len() <= turns,
        None => are_over(walks, turns),
    }
}

/// Sets the variables of a walk to the elements that come next after so many turns, and to the
/// empty text where none is left.
///
/// # Errors
/// Why the first that can't be set can't; want of memory.
fn set_walk(
    tree: &mut Tree,
    alloc: Global,
    place: Place,
    walk: &Walk,
    turns: usize,
) -> Result<(), Interruption>
    requires { (p : Path) × Names tree.old place p }
    ensures set { Steps tree.old place
        (λ k. sets_names walk.now.names (drop (turns * length walk.now.names) walk.now.elements)
        (λ left. k)) tree.new result }
    ensures level { IsLevel tree.old tree.new }
{
    let count = walk.names.len();
    'names: for index in 0..count {
        let name = walk.names.get(index);
        let value = element_at(&walk.elements, turns, count, index)?;
        set_variable(tree, alloc, place, name, value)?;
    }
    Ok(())
}

/// Sets the variables of each of these walks for the turn after so many, from the left.
///
/// # Errors
/// Why the first that can't be set can't; want of memory.
#[inline(never)]
fn set_each(
    tree: &mut Tree,
    alloc: Global,
    place: Place,
    walks: &[Walk],
    turns: usize,
) -> Result<(), Interruption>
    requires { (p : Path) × Names tree.old place p }
    ensures set { Steps tree.old place
        (λ k. sets_walks (walks_at turns walks.now) (λ rest. k)) tree.new result }
    ensures level { IsLevel tree.old tree.new }
{
    'walks: for walk in walks {
        set_walk(tree, alloc, place, walk, turns)?;
    }
    Ok(())
}

/// The element at an index; the empty text where there is none.
#[inline]
fn element_or_empty(list: &List, index: usize) -> Result<Value, AllocError>
    ensures { IfOk result (λ value. value ≡ get_or list.now index []) }
{
    if index < list.len() {
        return list.get(index);
    }
    Ok(Value::empty())
}

/// Sets the variable of a loop that has one, and one list, for the turn after so many.
///
/// # Errors
/// Why it can't be set; want of memory.
#[inline]
fn set_only(
    tree: &mut Tree,
    alloc: Global,
    place: Place,
    name: &VariableName,
    list: &List,
    turns: usize,
) -> Result<(), Interruption>
    requires { (p : Path) × Names tree.old place p }
    ensures set { Steps tree.old place (sets name.now (get_or list.now turns [])) tree.new result }
    ensures level { IsLevel tree.old tree.new }
{
    let value = element_or_empty(list, turns)?;
    set_variable(tree, alloc, place, name, value)
}

/// Sets the variables of a loop's walks for the turn after so many, from the left. (foreach(n))
///
/// # Errors
/// Why the first that can't be set can't; want of memory.
#[inline(never)]
pub fn set_walks(
    tree: &mut Tree,
    alloc: Global,
    place: Place,
    walks: &[Walk],
    turns: usize,
) -> Result<(), Interruption>
    requires { (p : Path) × Names tree.old place p }
    ensures set { Steps tree.old place
        (λ k. sets_walks (walks_at turns walks.now) (λ rest. k)) tree.new result }
    ensures level { IsLevel tree.old tree.new }
{
    match only_walk(walks) {
        Some((name, list)) => set_only(tree, alloc, place, name, list, turns),
        None => set_each(tree, alloc, place, walks, turns),
    }
}
