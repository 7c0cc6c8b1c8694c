//! What is done to the frames of a chain.
ghost use Rattle.std.specs.Prelude.{◌≡◌, ◌<◌, Ok, Some, None, length, MatchOption, IfSome, IfOk};
ghost use Rattle.std.specs.Prelude.{OnOk, IfErr, OnErr};
ghost use Rattle.std.specs.Option.{option_copied};
ghost use Rattle.tcl_frames.specs.Chain.{read, exists_at, array_at, place_named};
ghost use Rattle.tcl_frames.specs.Faults.{Refuses, IsRefusal};
ghost use Rattle.tcl_frames.specs.Places.{bound, under, end_of, current, level_of};
ghost use Rattle.tcl_frames.specs.Variables.{merge, part_of};
ghost use Rattle.tcl_frames.specs.Variables.Part.{whole, element};
ghost use Rattle.tcl_frames.specs.Parts.{seen_part};
ghost use Rattle.tcl_frames.specs.Reached.{reached, link_of, start, over, bound_where, Stands};
ghost use Rattle.tcl_frames.specs.Changes.{change_levels, change_named, IsChangedThere};
ghost use Rattle.tcl_frames.specs.Targets.{owned_part, target_or, ended};
ghost use Rattle.tcl_frames.specs.declared.fault.FrameFault.TheVariants.{BadName};
ghost use Rattle.tcl_frames.specs.Sound.{AreFit};

use crate::access::{Part, elements_in, holds_in, value_in};
use crate::fault::{FrameError, NameFault, refused};
use crate::frame::{Change, Frame};
use crate::name::read_name;
use crate::name_map::NameMap;
use crate::variable::{LinkTarget, Variable};
use std::alloc::{AllocError, Global};
use tcl_text::text::Text;
use tcl_value::value::Value;

/// What a name stands for at a level.
pub(crate) fn variable_at<'a>(frames: &'a [Frame], level: usize, name: &str) -> Option<&'a Variable>
    ensures { option_copied result ≡ bound frames.now level name.now }
{
    match frames.get(level) {
        Some(frame) => frame.variable(name),
        None => None,
    }
}

/// Where the links from a place end.
#[derive(Clone, Copy)]
pub(crate) struct Reached<'a> {
    pub(crate) level: usize,
    pub(crate) name: &'a Text,
    pub(crate) part: Part<'a>,
}

/// A part of what is at a place with a key or none.
fn part_under<'a>(key: &'a Option<Text>, part: Part<'a>) -> Part<'a>
    ensures { seen_part result ≡ merge (part_of key.now) (seen_part part.entry) }
{
    match key {
        None => part,
        Some(key) => match part {
            Part::Whole => Part::Element(key.as_str()),
            Part::Element(_) => Part::Nested,
            Part::Nested => Part::Nested,
        },
    }
}

/// The same part, with a key after it.
pub(crate) fn part_over<'a>(part: Part<'_>, key: &'a str) -> Part<'a>
    ensures { seen_part result ≡ merge (seen_part part.entry) (element key.now) }
{
    match part {
        Part::Whole => Part::Element(key),
        Part::Element(_) => Part::Nested,
        Part::Nested => Part::Nested,
    }
}

/// The place at which a name stands in the frame of a level, where it is no link.
fn unlinked_place(frames: &[Frame], level: usize, base: &str) -> Option<usize>
    ensures { IfSome result (λ _. link_of (bound frames.now level base.now) ≡ None) }
{
    match frames.get(level) {
        Some(frame) => frame.unlinked_place(base),
        None => None,
    }
}

/// The place that a variable links to.
pub(crate) fn link_in<'a>(variable: Option<&'a Variable>) -> Option<&'a LinkTarget>
    ensures { option_copied result ≡ link_of (option_copied variable.entry) }
{
    match variable {
        Some(Variable::Link(place)) => Some(place),
        _ => None,
    }
}

/// The place that a name at a level links to.
pub(crate) fn link_at<'a>(frames: &'a [Frame], level: usize, name: &Text) -> Option<&'a LinkTarget>
    ensures { option_copied result ≡ link_of (bound frames.now level name.now) }
{
    link_in(variable_at(frames, level, name.as_str()))
}

/// Follows a link and those that it leads to.
pub(crate) fn reach<'a>(frames: &'a [Frame], link: &'a LinkTarget) -> Reached<'a>
    requires { AreFit 0 frames.now }
    ensures { reached result ≡ end_of frames.now (under link.now whole) }
{
    let mut level = link.level;
    let mut name = &link.name;
    let mut part = part_under(&link.key, Part::Whole);
    'links: loop {
        match link_at(frames, level, name) {
            Some(next) => {
                level = next.level;
                name = &next.name;
                part = part_under(&next.key, part);
            }
            None => return Reached { level, name, part },
        }
    }
}

/// What stands where the links from a name end, and the part of it that they mean.
#[derive(Clone, Copy)]
pub(crate) struct Found<'a> {
    pub(crate) variable: Option<&'a Variable>,
    pub(crate) part: Part<'a>,
}

/// Looks a name up at a level.
pub(crate) fn find<'a>(frames: &'a [Frame], level: usize, base: &str) -> Found<'a>
    requires { AreFit 0 frames.now }
    ensures variable { option_copied result.variable ≡ bound_where frames.now
        (end_of frames.now (start level base.now)) }
    ensures part { seen_part result.part ≡ (end_of frames.now (start level base.now)).part }
{
    let variable = variable_at(frames, level, base);
    match link_in(variable) {
        None => Found {
            variable,
            part: Part::Whole,
        },
        Some(link) => {
            let end = reach(frames, link);
            Found {
                variable: variable_at(frames, end.level, end.name.as_str()),
                part: end.part,
            }
        }
    }
}

/// The level that a name means where it is written at a level.
pub(crate) fn level_for(is_global: bool, level: usize) -> usize
    ensures { result ≡ level_of is_global level }
{
    if is_global { 0 } else { level }
}

/// The level that a name means: 0, or the current one.
pub(crate) fn level_meant(frames: &[Frame], is_global: bool) -> usize
    ensures { result ≡ level_of is_global (current frames.now) }
{
    level_for(is_global, frames.len().saturating_sub(1))
}

/// A name that was looked up: what stands where its links end, the part of it that they mean, and
/// the key that was written.
#[derive(Clone, Copy)]
struct Looked<'a, 'n> {
    variable: Option<&'a Variable>,
    part: Part<'a>,
    key: Option<&'n str>,
}

/// Looks a written name up.
fn look<'a, 'n>(frames: &'a [Frame], name: &'n Text) -> Result<Looked<'a, 'n>, FrameError>
    requires { AreFit 0 frames.now }
    ensures ok { IfOk result
        (λ looked. Stands frames.now name.now (option_copied looked.variable)
        (merge (seen_part looked.part) (part_of (option_copied looked.key)))) }
    ensures err { IfErr result
        (λ e. (place_named frames.now name.now ≡ None) × IsRefusal e (BadName name.now)) }
{
    match read_name(name.as_str()) {
        None => Err(refused(NameFault::BadName, name)),
        Some(written) => {
            let level = level_meant(frames, written.is_global);
            let found = find(frames, level, written.base);
            Ok(Looked {
                variable: found.variable,
                part: found.part,
                key: written.key,
            })
        }
    }
}

/// What a name holds.
pub(crate) fn get_in<'a>(frames: &'a [Frame], name: &Text) -> Result<&'a Value, FrameError>
    requires { AreFit 0 frames.now }
    ensures ok { IfOk result (λ value. read frames.now name.now ≡ Ok value.now) }
    ensures err { IfErr result (λ e. Refuses e (read frames.now name.now)) }
{
    let looked = look(frames, name)?;
    match looked.key {
        None => value_in(looked.variable, looked.part, name),
        Some(key) => value_in(looked.variable, part_over(looked.part, key), name),
    }
}

/// Whether a name's place holds a value.
pub(crate) fn exists_in(frames: &[Frame], name: &Text) -> Result<bool, FrameError>
    requires { AreFit 0 frames.now }
    ensures ok { IfOk result (λ held. exists_at frames.now name.now ≡ Ok held) }
    ensures err { IfErr result (λ e. Refuses e (exists_at frames.now name.now)) }
{
    let looked = look(frames, name)?;
    match looked.key {
        None => Ok(holds_in(looked.variable, looked.part)),
        Some(key) => Ok(holds_in(looked.variable, part_over(looked.part, key))),
    }
}

/// The elements of the array that a name is, if it is one.
pub(crate) fn array_in<'a>(
    frames: &'a [Frame],
    name: &Text,
) -> Result<Option<&'a NameMap<Value>>, FrameError>
    requires { AreFit 0 frames.now }
    ensures ok { IfOk result
        (λ elements. array_at frames.now name.now ≡ Ok (option_copied elements)) }
    ensures err { IfErr result (λ e. Refuses e (array_at frames.now name.now)) }
{
    let looked = look(frames, name)?;
    match looked.key {
        None => Ok(elements_in(looked.variable, looked.part)),
        Some(key) => Ok(elements_in(looked.variable, part_over(looked.part, key))),
    }
}

/// A part that borrows nothing.
#[derive(Drop)]
pub(crate) enum OwnedPart {
    Whole,
    Element(Text),
    Nested,
}

impl OwnedPart {
    fn of(alloc: Global, part: Part<'_>) -> Result<OwnedPart, AllocError>
        ensures { IfOk result (λ owned. owned_part owned ≡ seen_part part.entry) }
    {
        match part {
            Part::Whole => Ok(OwnedPart::Whole),
            Part::Element(key) => Ok(OwnedPart::Element(Text::new(alloc, key)?)),
            Part::Nested => Ok(OwnedPart::Nested),
        }
    }

    fn with_key(alloc: Global, part: Part<'_>, key: Option<&str>) -> Result<OwnedPart, AllocError>
        ensures { IfOk result (λ owned. owned_part owned
            ≡ merge (seen_part part.entry) (part_of (option_copied key.entry))) }
    {
        match key {
            None => OwnedPart::of(alloc, part),
            Some(key) => OwnedPart::of(alloc, part_over(part, key)),
        }
    }

    pub(crate) fn as_part(&self) -> Part<'_>
        ensures { seen_part result ≡ owned_part self.now }
    {
        match self {
            OwnedPart::Whole => Part::Whole,
            OwnedPart::Element(key) => Part::Element(key.as_str()),
            OwnedPart::Nested => Part::Nested,
        }
    }
}

/// Where the links from a name end.
#[derive(Drop)]
pub(crate) struct Target {
    pub(crate) level: usize,
    pub(crate) name: Text,
    pub(crate) part: OwnedPart,
}

impl Target {
    ghost use Rattle.std.specs.Prelude.{MatchOption};
    ghost use Rattle.tcl_frames.specs.Places.{under};
    ghost use Rattle.tcl_frames.specs.Variables.Part.{whole, nested};
    ghost use Rattle.tcl_frames.specs.Targets.{owned_part, target_spot};

    /// The place that it is, or none where it is an element of an element.
    pub(crate) fn into_place(self) -> Option<LinkTarget>
        ensures { MatchOption result (owned_part self.part ≡ nested)
            (λ q. target_spot self ≡ under q whole) }
    {
        let Target { level, name, part } = self;
        match part {
            OwnedPart::Whole => Some(LinkTarget {
                level,
                name,
                key: None,
            }),
            OwnedPart::Element(key) => Some(LinkTarget {
                level,
                name,
                key: Some(key),
            }),
            OwnedPart::Nested => None,
        }
    }
}

/// Where the links from a name end, if it is a link.
pub(crate) fn find_target<'a>(
    frames: &[Frame],
    alloc: Global,
    level: usize,
    base: &str,
    key: Option<&'a str>,
) -> Result<Option<Target>, AllocError>
    requires { AreFit 0 frames.now }
    ensures { IfOk result (λ target. end_of frames.now
        (over (start level base.now) (part_of (option_copied key.entry)))
        ≡ target_or (start level base.now) (part_of (option_copied key.entry)) target) }
{
    match link_in(variable_at(frames, level, base)) {
        None => Ok(None),
        Some(link) => {
            let end = reach(frames, link);
            Ok(Some(Target {
                level: end.level,
                name: end.name.clone()?,
                part: OwnedPart::with_key(alloc, end.part, key)?,
            }))
        }
    }
}

/// Where the links from a name end, if it is a link, and the place at which what is there may stand
/// in its frame. A name that is no link, as most are, is looked up once, and stands at that place.
pub(crate) fn find_end(
    frames: &[Frame],
    alloc: Global,
    level: usize,
    base: &str,
    key: Option<&str>,
) -> Result<(Option<Target>, usize), AllocError>
    requires { AreFit 0 frames.now }
    ensures { IfOk result (λ found. end_of frames.now
        (over (start level base.now) (part_of (option_copied key.entry)))
        ≡ target_or (start level base.now) (part_of (option_copied key.entry)) found.0) }
{
    match unlinked_place(frames, level, base) {
        Some(place) => Ok((None, place)),
        None => Ok((find_target(frames, alloc, level, base, key)?, 0)),
    }
}

/// The part that a key means.
fn part_written(key: Option<&str>) -> Part<'_>
    ensures { seen_part result ≡ part_of (option_copied key.entry) }
{
    match key {
        None => Part::Whole,
        Some(key) => Part::Element(key),
    }
}

/// Where the links from a name end, borrowed.
#[derive(Clone, Copy)]
pub(crate) struct Ended<'a> {
    pub(crate) level: usize,
    pub(crate) base: &'a str,
    pub(crate) part: Part<'a>,
}

/// Where the links from a name at a level end: at the target, or at the name itself where there is
/// none.
pub(crate) fn end_or<'a>(
    target: &'a Option<Target>,
    level: usize,
    base: &'a str,
    key: Option<&'a str>,
) -> Ended<'a>
    ensures { ended result
        ≡ target_or (start level base.now) (part_of (option_copied key.entry)) target.now }
{
    match target {
        None => Ended {
            level,
            base,
            part: part_written(key),
        },
        Some(end) => Ended {
            level: end.level,
            base: end.name.as_str(),
            part: end.part.as_part(),
        },
    }
}

/// Changes what a name at a level stands for.
pub(crate) fn change_at(
    frames: &mut [Frame],
    alloc: Global,
    level: usize,
    base: &str,
    part: Part<'_>,
    change: Change,
    name: &Text,
) -> Result<(), FrameError>
    requires { level < length frames.old }
    ensures ok { OnOk result (change_levels change frames.old
        (over (start level base.now) (seen_part part.entry)) name.now ≡ Ok frames.new) }
    ensures err { IfErr result
        (λ e. Refuses e (change_levels change frames.old
        (over (start level base.now) (seen_part part.entry)) name.now)) }
    ensures unchanged { OnErr result (frames.new ≡ frames.old) }
{
    let frame = &mut frames[level];
    frame.change(alloc, base, part, change, name)
}

/// Changes what a name at a level stands for, or gives the change back where the name is a link.
fn change_unlinked(
    frames: &mut [Frame],
    alloc: Global,
    level: usize,
    base: &str,
    part: Part<'_>,
    change: Change,
    name: &Text,
) -> Result<Option<Change>, FrameError>
    requires { level < length frames.old }
    ensures ok { IfOk result
        (λ left. MatchOption left (IsChangedThere change frames.old
        (over (start level base.now) (seen_part part.entry)) name.now frames.new)
        (λ c. (c ≡ change) × (frames.new ≡ frames.old))) }
    ensures err { IfErr result
        (λ e. (link_of (bound frames.old level base.now) ≡ None) ×
        Refuses e (change_levels change frames.old
        (over (start level base.now) (seen_part part.entry)) name.now)) }
    ensures unchanged { OnErr result (frames.new ≡ frames.old) }
{
    let frame = &mut frames[level];
    frame.change_unlinked(alloc, base, part, change, name)
}

/// Changes what is where the links from a name at a level end. Where the name is no link, as most
/// are, a set looks it up once.
pub(crate) fn change_from(
    frames: &mut [Frame],
    alloc: Global,
    level: usize,
    base: &str,
    key: Option<&str>,
    change: Change,
    name: &Text,
) -> Result<(), FrameError>
    requires fit { AreFit 0 frames.old }
    requires within { level < length frames.old }
    ensures ok { OnOk result (change_levels change frames.old
        (end_of frames.old (over (start level base.now) (part_of (option_copied key.entry))))
        name.now ≡ Ok frames.new) }
    ensures err { IfErr result
        (λ e. Refuses e (change_levels change frames.old
        (end_of frames.old (over (start level base.now) (part_of (option_copied key.entry))))
        name.now)) }
    ensures unchanged { OnErr result (frames.new ≡ frames.old) }
{
    match change_unlinked(frames, alloc, level, base, part_written(key), change, name) {
        Ok(None) => Ok(()),
        Ok(Some(change)) => {
            let end = find_target(frames, alloc, level, base, key)?;
            let at = end_or(&end, level, base, key);
            change_at(frames, alloc, at.level, at.base, at.part, change, name)
        }
        Err(error) => Err(error),
    }
}

/// Changes what a name stands for.
pub(crate) fn change_in(
    frames: &mut [Frame],
    alloc: Global,
    name: &Text,
    change: Change,
) -> Result<(), FrameError>
    requires fit { AreFit 0 frames.old }
    requires some { 0 < length frames.old }
    ensures ok { OnOk result (change_named change frames.old name.now ≡ Ok frames.new) }
    ensures err { IfErr result (λ e. Refuses e (change_named change frames.old name.now)) }
    ensures unchanged { OnErr result (frames.new ≡ frames.old) }
{
    match read_name(name.as_str()) {
        None => Err(refused(NameFault::BadName, name)),
        Some(written) => {
            let level = level_meant(frames, written.is_global);
            change_from(
                frames,
                alloc,
                level,
                written.base,
                written.key,
                change,
                name,
            )
        }
    }
}
