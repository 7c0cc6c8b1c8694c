//! The chain of frames of an interpreter.
ghost use Rattle.std.specs.Prelude.{◌≡◌, ◌+◌, ◌<◌, ◌≤◌, Ok, length, take, drop, IfOk, OnOk, IfErr};
ghost use Rattle.std.specs.Prelude.{OnErr, [], ◌-◌, vec_len};
ghost use Rattle.std.specs.Option.{option_copied};
ghost use Rattle.std.specs.Vec.{vec_capacity};
ghost use Rattle.std.specs.Prelude.{reverse, nat_lt, ◌↔◌, IsTrue};
ghost use Rattle.tcl_frames.specs.Chain.{least};

mod elements;
mod hints;

use crate::access::Part;
use crate::arrays::{elements_taken, keys_taken, owned_pattern};
use crate::comparing::{Same, same_items};
use crate::fault::{FrameError, FrameFault, NameFault, refused};
use crate::frame::{Change, Frame};
use crate::keys::change_key_in;
use crate::links::link_frames;
use crate::name::read_name;
use crate::name_map::NameMap;
use crate::names::{names_at, own_names};
use crate::scope::Scope;
use crate::steps::{array_in, change_in, end_or, exists_in, find_end, get_in, level_meant};
use crate::variable::Variable;
use std::alloc::{AllocError, Global};
use std::marker::Model;
use tcl_text::text::Text;
use tcl_value::value::Value;

/// The most frames that may stand where room is taken to keep that of one more.
const MOST_SPARE: usize = 64;

/// A frame with nothing in it.
#[derive(Drop)]
struct SpareFrame {
    frame: Frame,
    ghost no_words: { frame.words ≡ [] },
    ghost no_variables: { frame.variables ≡ [] },
}

/// Frames that were set aside: those that stood above a level.
#[derive(Drop)]
struct SetAside {
    above: usize,
    frames: Vec<Frame>,
}

impl Model for SetAside {
    ghost use Rattle.tcl_frames.specs.Chain.{Aside};

    ghost Value = { Aside };

    ghost view = { λ a. record { above = a.above; frames = a.frames.items } };
}

impl Clone for SetAside {
    ghost is_clone = { λ x y. y ≡ x };

    fn clone(&self) -> Result<SetAside, AllocError> {
        let frames = self.frames.clone()?;
        Ok(SetAside {
            above: self.above,
            frames,
        })
    }
}

impl Same for SetAside {
    fn same(&self, other: &SetAside) -> bool {
        self.above == other.above && same_items(self.frames.as_slice(), other.frames.as_slice())
    }
}

/// The chain of frames of an interpreter, with the parts of chains that are set aside.
///
/// Contracts see it as a `Chain`. Level 0 is global and always there. Every refused call leaves it
/// as it was.
pub struct Frames {
    frames: Vec<Frame>,
    aside: Vec<SetAside>,
    // Frames that were taken off, for the next ones.
    spare: Vec<SpareFrame>,
}

impl Drop for Frames {
    fn drop(self) {
        let Frames {
            frames: _frames,
            aside: _aside,
            spare: _spare,
        } = self;
    }
}

impl Model for Frames {
    ghost use Rattle.std.specs.Prelude.{reverse};
    ghost use Rattle.std.specs.Vec.{vec_capacity};
    ghost use Rattle.tcl_frames.specs.Chain.{Chain};
    ghost use Rattle.tcl_frames.specs.Sound.{IsSound, HasRoom};

    ghost Value = { Chain };

    ghost view = { λ a. record { frames = a.frames.items; aside = reverse a.aside.items } };

    ghost invariant = { λ a. IsSound
        (record { frames = a.frames.items; aside = reverse a.aside.items }) ×
        HasRoom (vec_capacity a.frames) (reverse a.aside.items) };
}

/// Takes the frames above a level out.
fn split_frames(frames: &mut Vec<Frame>, alloc: Global, at: usize) -> Result<Vec<Frame>, AllocError>
    requires { at ≤ length frames.old.items }
    ensures kept { OnOk result (frames.new.items ≡ take at frames.old.items) }
    ensures taken { IfOk result (λ rest. rest.items ≡ drop at frames.old.items) }
    ensures unchanged { OnErr result (frames.new.items ≡ frames.old.items) }
    ensures room { vec_capacity frames.new ≡ vec_capacity frames.old }
{
    let count = frames.len() - at;
    let mut rest = Vec::with_capacity(alloc, count)?;
    'frames: while frames.len() > at {
        match frames.pop() {
            Some(frame) => rest.push_reserved(frame),
            None => unreachable!(),
        }
    }
    rest.reverse();
    Ok(rest)
}

/// A frame with no words and no variables: a spare one, if there is one. Where there is none, there
/// is room afterwards to keep so many, if they aren't too many.
fn empty_frame(
    spare: &mut Vec<SpareFrame>,
    alloc: Global,
    count: usize,
) -> Result<Frame, AllocError>
    ensures words { IfOk result (λ frame. frame.words ≡ []) }
    ensures variables { IfOk result (λ frame. frame.variables ≡ []) }
{
    if let Some(SpareFrame { frame }) = spare.pop() {
        return Ok(frame);
    }
    if count < MOST_SPARE {
        spare.reserve(count)?;
    }
    Ok(Frame::new(alloc, Vec::new(alloc)))
}

/// Takes the frame on top off, and keeps its room, where there is room for that.
fn take_off(frames: &mut Vec<Frame>, spare: &mut Vec<SpareFrame>)
    ensures items { frames.new.items ≡ take (vec_len frames.old - 1) frames.old.items }
    ensures capacity { vec_capacity frames.new ≡ vec_capacity frames.old }
{
    let Some(frame) = frames.pop() else {
        return;
    };
    let mut frame = frame;
    if frame.clear_small() && spare.len() < spare.capacity() {
        spare.push_reserved(SpareFrame { frame });
    }
}

/// Whether a pop takes a frame off, where there are so many frames.
fn may_pop(aside: &[SetAside], count: usize) -> bool
    ensures { result ≡ nat_lt (least (reverse aside.now)) count }
{
    match aside.last() {
        Some(part) => part.above < count && part.above + 1 < count,
        None => 1 < count,
    }
}

impl Frames {
    ghost use Rattle.std.specs.Prelude.{◌∷◌, IsSome};
    ghost use Rattle.tcl_frames.specs.Chain.{fresh, read, exists_at, array_at, after_set};
    ghost use Rattle.tcl_frames.specs.Chain.{after_array, after_unset, after_link, with_frames};
    ghost use Rattle.tcl_frames.specs.Chain.{names_of, words_at, pushed, popped, set_aside};
    ghost use Rattle.tcl_frames.specs.Chain.{brought_back};
    ghost use Rattle.tcl_frames.specs.Faults.{Refuses};
    ghost use Rattle.tcl_frames.specs.Places.{current};
    ghost use Rattle.tcl_frames.specs.Changes.{change_named};
    ghost use Rattle.tcl_frames.specs.Keys.{change_key, after_set_key, after_unset_key};
    ghost use Rattle.tcl_frames.specs.Arrays.{after_set_elements, after_unset_elements};
    ghost use Rattle.tcl_frames.specs.Arrays.{of_elements, is_found};
    ghost use Rattle.tcl_frames.specs.VariableArrays.{taken};
    ghost use Rattle.std.specs.Map.{keys_of};

    /// A chain of the global frame alone, which has no words and no variables.
    ///
    /// # Errors
    /// Want of memory.
    pub fn new(alloc: Global) -> Result<Frames, AllocError>
        ensures { IfOk result (λ made. made ≡ fresh) }
    {
        let mut frames = Vec::new(alloc);
        frames.push(Frame::new(alloc, Vec::new(alloc)))?;
        Ok(Frames {
            frames,
            aside: Vec::new(alloc),
            spare: Vec::new(alloc),
        })
    }

    /// A chain equal to this one, which shares the values.
    ///
    /// # Errors
    /// Want of memory.
    pub fn copy(&self) -> Result<Frames, AllocError>
        ensures { IfOk result (λ made. made ≡ self.now) }
    {
        let mut frames = self.frames.clone()?;
        let room = self.frames.capacity().saturating_sub(self.frames.len());
        frames.reserve(room)?;
        let aside = self.aside.clone()?;
        let spare = Vec::new(*self.spare.allocator());
        Ok(Frames {
            frames,
            aside,
            spare,
        })
    }

    /// Whether the other is an equal chain: the same words, the same names in the same order and
    /// what they stand for, and the same set aside. This takes no memory.
    pub fn same(&self, other: &Frames) -> bool
        ensures { IsTrue result ↔ (self.now ≡ other.now) }
    {
        same_items(self.frames.as_slice(), other.frames.as_slice())
            && same_items(self.aside.as_slice(), other.aside.as_slice())
    }

    /// The level that runs: that of the frame on top.
    pub fn level(&self) -> usize
        ensures { result ≡ current self.now.frames }
    {
        self.frames.len().saturating_sub(1)
    }

    /// The words of the call at a level, if there is such a level. This takes no memory.
    pub fn words(&self, level: usize) -> Option<&[Value]>
        ensures { option_copied result ≡ words_at self.now.frames level }
    {
        match self.frames.get(level) {
            Some(frame) => Some(frame.words()),
            None => None,
        }
    }

    /// What a name holds. This takes no memory.
    ///
    /// # Errors
    /// Refusals 231 to 234 and 238 (of reading).
    pub fn get<'a>(&'a self, name: &Text) -> Result<&'a Value, FrameError>
        ensures ok { IfOk result (λ value. read self.now.frames name.now ≡ Ok value.now) }
        ensures err { IfErr result (λ e. Refuses e (read self.now.frames name.now)) }
    {
        get_in(self.frames.as_slice(), name)
    }

    /// Whether a name's place holds a value. This takes no memory.
    ///
    /// # Errors
    /// NameFault 238.
    pub fn exists(&self, name: &Text) -> Result<bool, FrameError>
        ensures ok { IfOk result (λ held. exists_at self.now.frames name.now ≡ Ok held) }
        ensures err { IfErr result (λ e. Refuses e (exists_at self.now.frames name.now)) }
    {
        exists_in(self.frames.as_slice(), name)
    }

    /// The elements of the array that a name is, in the order of insertion, or none where it isn't
    /// an array. This takes no memory.
    ///
    /// # Errors
    /// NameFault 238.
    pub fn array<'a>(&'a self, name: &Text) -> Result<Option<&'a NameMap<Value>>, FrameError>
        ensures ok { IfOk result
            (λ elements. array_at self.now.frames name.now ≡ Ok (option_copied elements)) }
        ensures err { IfErr result (λ e. Refuses e (array_at self.now.frames name.now)) }
    {
        array_in(self.frames.as_slice(), name)
    }

    /// Whether a name is an array. This takes no memory.
    ///
    /// # Errors
    /// NameFault 238.
    pub fn is_array(&self, name: &Text) -> Result<bool, FrameError>
        ensures ok { IfOk result (λ is. is_found (array_at self.now.frames name.now) ≡ Ok is) }
        ensures err { IfErr result (λ e. Refuses e (is_found (array_at self.now.frames name.now))) }
    {
        Ok(self.array(name)?.is_some())
    }

    /// How many elements the array has that a name is; 0 where it isn't one. This takes no memory.
    ///
    /// # Errors
    /// NameFault 238.
    pub fn element_count(&self, name: &Text) -> Result<usize, FrameError>
        ensures ok { IfOk result
            (λ count. of_elements length (array_at self.now.frames name.now) ≡ Ok count) }
        ensures err { IfErr result
            (λ e. Refuses e (of_elements length (array_at self.now.frames name.now))) }
    {
        match self.array(name)? {
            Some(elements) => Ok(elements.len()),
            None => Ok(0),
        }
    }

    /// The keys of the array that a name is, in the order of insertion: those that a pattern
    /// matches, or all where there is none. What is no array has none.
    ///
    /// # Errors
    /// Want of memory; refusal 238.
    pub fn element_names(
        &self,
        alloc: Global,
        name: &Text,
        pattern: Option<&Text>,
    ) -> Result<Vec<Text>, FrameError>
        ensures ok { IfOk result
            (λ keys. of_elements (λ es. keys_of (taken (option_copied pattern.entry) es))
            (array_at self.now.frames name.now) ≡ Ok keys.items) }
        ensures err { IfErr result
            (λ e. Refuses e (of_elements
            (λ es. keys_of (taken (option_copied pattern.entry) es))
            (array_at self.now.frames name.now))) }
    {
        match self.array(name)? {
            Some(elements) => Ok(keys_taken(alloc, elements, pattern)?),
            None => Ok(Vec::new(alloc)),
        }
    }

    /// The keys and values of the array that a name is, in the order of insertion: those whose keys
    /// a pattern matches, or all where there is none. What is no array has none. The values are
    /// shared.
    ///
    /// # Errors
    /// Want of memory; refusal 238.
    pub fn elements(
        &self,
        alloc: Global,
        name: &Text,
        pattern: Option<&Text>,
    ) -> Result<Vec<(Text, Value)>, FrameError>
        ensures ok { IfOk result
            (λ pairs. of_elements (taken (option_copied pattern.entry))
            (array_at self.now.frames name.now) ≡ Ok pairs.items) }
        ensures err { IfErr result
            (λ e. Refuses e (of_elements (taken (option_copied pattern.entry))
            (array_at self.now.frames name.now))) }
    {
        match self.array(name)? {
            Some(elements) => Ok(elements_taken(alloc, elements, pattern)?),
            None => Ok(Vec::new(alloc)),
        }
    }

    /// The names of which the scope speaks, in the order of insertion.
    ///
    /// # Errors
    /// Want of memory.
    pub fn names(&self, alloc: Global, scope: Scope) -> Result<Vec<Text>, AllocError>
        ensures { IfOk result (λ names. names.items ≡ names_of scope self.now.frames) }
    {
        let frames = self.frames.as_slice();
        match scope {
            Scope::Visible => names_at(frames, alloc, self.level()),
            Scope::Global => names_at(frames, alloc, 0),
            Scope::Local => own_names(frames, alloc),
        }
    }

    /// Changes what a name stands for.
    #[inline(always)]
    fn change(&mut self, alloc: Global, name: &Text, change: Change) -> Result<(), FrameError>
        ensures ok { OnOk result
            (with_frames self.old (change_named change self.old.frames name.now)
            ≡ Ok self.new) }
        ensures err { IfErr result (λ e. Refuses e (change_named change self.old.frames name.now)) }
        ensures unchanged { OnErr result (self.new ≡ self.old) }
    {
        change_in(self.frames.as_mut_slice(), alloc, name, change)
    }

    /// Sets a name.
    ///
    /// # Errors
    /// Want of memory; refusals 232, 233 (of setting) and 238.
    pub fn set(&mut self, alloc: Global, name: &Text, value: Value) -> Result<(), FrameError>
        ensures ok { OnOk result (after_set self.old name.now value ≡ Ok self.new) }
        ensures err { IfErr result (λ e. Refuses e (after_set self.old name.now value)) }
        ensures unchanged { OnErr result (self.new ≡ self.old) }
    {
        self.change(alloc, name, Change::Assign(value))
    }

    /// Makes a name an array with no elements, where it isn't an array yet.
    ///
    /// # Errors
    /// Want of memory; refusals 233 (of setting) and 238.
    pub fn make_array(&mut self, alloc: Global, name: &Text) -> Result<(), FrameError>
        ensures ok { OnOk result (after_array self.old name.now ≡ Ok self.new) }
        ensures err { IfErr result (λ e. Refuses e (after_array self.old name.now)) }
        ensures unchanged { OnErr result (self.new ≡ self.old) }
    {
        self.change(alloc, name, Change::SetElements(Vec::new(alloc)))
    }

    /// Sets elements of the array that a name is, from the first on, all of them or none; where
    /// there is no variable, the array is made. A refusal names the first element, as `a(k)`, or
    /// the name where there is none.
    ///
    /// # Errors
    /// Want of memory; refusals 233 (of setting) and 238.
    pub fn set_elements(
        &mut self,
        alloc: Global,
        name: &Text,
        elements: Vec<(Text, Value)>,
    ) -> Result<(), FrameError>
        ensures ok { OnOk result
            (after_set_elements self.old name.now elements.items ≡ Ok self.new) }
        ensures err { IfErr result
            (λ e. Refuses e (after_set_elements self.old name.now elements.items)) }
        ensures unchanged { OnErr result (self.new ≡ self.old) }
    {
        self.change(alloc, name, Change::SetElements(elements))
    }

    /// Unsets the elements of the array that a name is whose keys a pattern matches, in time linear
    /// in their number, or the array itself where there is no pattern. What is no array stays as it
    /// is.
    ///
    /// # Errors
    /// Want of memory; refusal 238.
    pub fn unset_elements(
        &mut self,
        alloc: Global,
        name: &Text,
        pattern: Option<&Text>,
    ) -> Result<(), FrameError>
        ensures ok { OnOk result
            (after_unset_elements self.old name.now (option_copied pattern.entry)
            ≡ Ok self.new) }
        ensures err { IfErr result
            (λ e. Refuses e (after_unset_elements self.old name.now
            (option_copied pattern.entry))) }
        ensures unchanged { OnErr result (self.new ≡ self.old) }
    {
        let pattern = owned_pattern(pattern)?;
        self.change(alloc, name, Change::UnsetElements(pattern))
    }

    /// Unsets a name's place.
    ///
    /// # Errors
    /// Want of memory; refusals 231, 233, 234 (of unsetting) and 238.
    pub fn unset(&mut self, alloc: Global, name: &Text) -> Result<(), FrameError>
        ensures ok { OnOk result (after_unset self.old name.now ≡ Ok self.new) }
        ensures err { IfErr result (λ e. Refuses e (after_unset self.old name.now)) }
        ensures unchanged { OnErr result (self.new ≡ self.old) }
    {
        self.change(alloc, name, Change::Unset)
    }

    /// Changes the element with a key, of what a name is.
    fn change_key(
        &mut self,
        alloc: Global,
        name: &Text,
        key: &Text,
        change: Change,
    ) -> Result<(), FrameError>
        ensures ok { OnOk result
            (with_frames self.old (change_key change self.old.frames name.now key.now)
            ≡ Ok self.new) }
        ensures err { IfErr result
            (λ e. Refuses e (change_key change self.old.frames name.now key.now)) }
        ensures unchanged { OnErr result (self.new ≡ self.old) }
    {
        change_key_in(self.frames.as_mut_slice(), alloc, name, key, change)
    }

    /// Sets the element with a key, of the array that a name is, which is made where there is no
    /// variable. A refusal names the element, as `a(k)`.
    ///
    /// # Errors
    /// Want of memory; refusals 233 (of setting) and 238 (of the name).
    pub fn set_element(
        &mut self,
        alloc: Global,
        name: &Text,
        key: &Text,
        value: Value,
    ) -> Result<(), FrameError>
        ensures ok { OnOk result (after_set_key self.old name.now key.now value ≡ Ok self.new) }
        ensures err { IfErr result
            (λ e. Refuses e (after_set_key self.old name.now key.now value)) }
        ensures unchanged { OnErr result (self.new ≡ self.old) }
    {
        self.change_key(alloc, name, key, Change::Assign(value))
    }

    /// Unsets the element with a key, of the array that a name is. A refusal names the element, as
    /// `a(k)`.
    ///
    /// # Errors
    /// Want of memory; refusals 231, 233, 234 (of unsetting) and 238 (of the name).
    pub fn unset_element(
        &mut self,
        alloc: Global,
        name: &Text,
        key: &Text,
    ) -> Result<(), FrameError>
        ensures ok { OnOk result (after_unset_key self.old name.now key.now ≡ Ok self.new) }
        ensures err { IfErr result (λ e. Refuses e (after_unset_key self.old name.now key.now)) }
        ensures unchanged { OnErr result (self.new ≡ self.old) }
    {
        self.change_key(alloc, name, key, Change::Unset)
    }

    /// Makes a local name of the current level a link to what another name is at a level.
    ///
    /// # Errors
    /// Want of memory. Refusals, in this order: 235 of the level; 238 of the other name, and of the
    /// local one, which may be no element and hold no two colons side by side; 237; 233 (of
    /// reading) where an element of an element is asked for; 236.
    pub fn link(
        &mut self,
        alloc: Global,
        level: usize,
        other: &Text,
        local: &Text,
    ) -> Result<(), FrameError>
        ensures ok { OnOk result (after_link self.old level other.now local.now ≡ Ok self.new) }
        ensures err { IfErr result
            (λ e. Refuses e (after_link self.old level other.now local.now)) }
        ensures unchanged { OnErr result (self.new ≡ self.old) }
    {
        link_frames(self.frames.as_mut_slice(), alloc, level, other, local)
    }

    /// Puts a frame with these words on top.
    ///
    /// # Errors
    /// Want of memory.
    #[inline(always)]
    pub fn push(&mut self, alloc: Global, words: Vec<Value>) -> Result<(), AllocError>
        ensures ok { OnOk result (self.new ≡ pushed self.old words.items) }
        ensures unchanged { OnErr result (self.new ≡ self.old) }
    {
        let count = self.frames.len();
        let mut frame = empty_frame(&mut self.spare, alloc, count)?;
        frame.set_words(words);
        self.frames.push(frame)?;
        Ok(())
    }

    /// Puts a frame with the words of a call on top.
    ///
    /// # Errors
    /// Want of memory.
    #[inline(always)]
    pub fn push_call(
        &mut self,
        alloc: Global,
        word: &Value,
        args: &[Value],
    ) -> Result<(), AllocError>
        ensures ok { OnOk result (self.new ≡ pushed self.old (word.now ∷ args.now)) }
        ensures unchanged { OnErr result (self.new ≡ self.old) }
    {
        let count = self.frames.len();
        let mut frame = empty_frame(&mut self.spare, alloc, count)?;
        frame.add_call(word, args)?;
        self.frames.push(frame)?;
        Ok(())
    }

    /// Takes the frame on top off. Level 0 stays, and so does the level above which frames were set
    /// aside. This takes no memory.
    pub fn pop(&mut self)
        ensures { self.new ≡ popped self.old }
    {
        let count = self.frames.len();
        if may_pop(self.aside.as_slice(), count) {
            take_off(&mut self.frames, &mut self.spare);
        }
    }

    /// Sets the frames above a level aside, so that the level runs.
    ///
    /// # Errors
    /// Want of memory; refusal 235.
    pub fn set_aside(&mut self, alloc: Global, level: usize) -> Result<(), FrameError>
        ensures ok { OnOk result (set_aside self.old level ≡ Ok self.new) }
        ensures err { IfErr result (λ e. Refuses e (set_aside self.old level)) }
        ensures unchanged { OnErr result (self.new ≡ self.old) }
    {
        if level >= self.frames.len() {
            return Err(FrameError::Fault(FrameFault::BadLevel(level)));
        }
        self.aside.reserve(1)?;
        let frames = split_frames(&mut self.frames, alloc, level + 1)?;
        self.aside.push_reserved(SetAside {
            above: level,
            frames,
        });
        Ok(())
    }

    /// Brings the frames that were set aside last back above their level, and drops what else
    /// stands there. This takes no memory.
    pub fn bring_back(&mut self)
        ensures { self.new ≡ brought_back self.old }
    {
        match self.aside.pop() {
            Some(part) => {
                let SetAside { above, mut frames } = part;
                self.frames.truncate(above + 1);
                self.frames.append(&mut frames).unwrap();
            }
            None => {}
        }
    }
}

impl Frames {
    ghost use Rattle.std.specs.Borrow.{sem};
    ghost use Rattle.tcl_frames.specs.Access.{value_of};
    ghost use Rattle.tcl_frames.specs.Faults.{Refuses};
    ghost use Rattle.tcl_frames.specs.Parts.{seen_part};
    ghost use Rattle.tcl_frames.specs.Variables.{part_of};
    ghost use Rattle.tcl_frames.specs.Chain.{read};
    ghost use Rattle.tcl_frames.specs.Places.{bound, end_of};
    ghost use Rattle.tcl_frames.specs.Reached.{start, over};
    ghost use Rattle.tcl_frames.specs.LendingChain.{LendsPartAt, LendsEnd, LendsSet};

    /// What a part of a name at a level holds, to write, in less time where the name stands at this
    /// place.
    fn lend(
        &mut self,
        level: usize,
        place: usize,
        base: &str,
        part: Part<'_>,
        name: &Text,
    ) -> Result<&mut Value, FrameError>
        requires { level < length self.old.frames }
        ensures* writes_back { sem 𝓛
            (LendsPartAt self.entry level base.now (seen_part part.entry) name.now result) }
        ensures ok { IfOk result
            (λ v. value_of (seen_part part.entry) (bound self.old.frames level base.now) name.now
            ≡ Ok v.now) }
        ensures err { IfErr result
            (λ e. Refuses e (value_of (seen_part part.entry) (bound self.old.frames level base.now)
            name.now)) }
    {
        let frame = &mut self.frames[level];
        match frame.value_mut_near(place, base, part, name) {
            Ok(value) => Ok(value),
            Err(error) => Err(error),
        }
    }

    /// What there is where the links from a name at a level end, to write. A name that is no link,
    /// as most are, is looked up once.
    fn lend_end(
        &mut self,
        alloc: Global,
        level: usize,
        base: &str,
        key: Option<&str>,
        name: &Text,
    ) -> Result<&mut Value, FrameError>
        requires { level < length self.old.frames }
        ensures* writes_back { sem 𝓛
            (LendsEnd self.entry level base.now (option_copied key.entry) name.now result) }
        ensures ok { IfOk result
            (λ v. let p = end_of self.old.frames
            (over (start level base.now) (part_of (option_copied key.entry))) in value_of p.part
            (bound self.old.frames p.level p.name) name.now ≡ Ok v.now) }
        ensures err { IfErr result
            (λ e. let p = end_of self.old.frames
            (over (start level base.now) (part_of (option_copied key.entry))) in Refuses e
            (value_of p.part (bound self.old.frames p.level p.name) name.now)) }
    {
        let (end, place) = find_end(self.frames.as_slice(), alloc, level, base, key)?;
        let at = end_or(&end, level, base, key);
        self.lend(at.level, place, at.base, at.part, name)
    }

    /// What a name holds, to write: once the borrow ends, the chain is as after [`Frames::set`] of
    /// the value that was left.
    ///
    /// # Errors
    /// Want of memory; refusals 231 to 234 and 238 (of reading).
    pub fn get_mut(&mut self, alloc: Global, name: &Text) -> Result<&mut Value, FrameError>
        ensures* writes_back { sem 𝓛 (LendsSet self.entry name.now result) }
        ensures ok { IfOk result (λ v. read self.old.frames name.now ≡ Ok v.now) }
        ensures err { IfErr result (λ e. Refuses e (read self.old.frames name.now)) }
    {
        match read_name(name.as_str()) {
            None => Err(refused(NameFault::BadName, name)),
            Some(written) => {
                let level = level_meant(self.frames.as_slice(), written.is_global);
                self.lend_end(alloc, level, written.base, written.key, name)
            }
        }
    }
}
