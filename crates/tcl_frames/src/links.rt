//! Making links.
ghost use Rattle.std.specs.Prelude.{◌≡◌, ◌<◌, Ok, length, IfOk, OnOk, IfErr, OnErr, MatchOption};
ghost use Rattle.std.specs.Option.{option_copied};
ghost use Rattle.tcl_frames.specs.Chain.{link_over, linked};
ghost use Rattle.tcl_frames.specs.Faults.{Refuses};
ghost use Rattle.tcl_frames.specs.Places.{bound, under, current, is_at};
ghost use Rattle.tcl_frames.specs.Targets.{target_or};
ghost use Rattle.tcl_frames.specs.Variables.{Part, part_of};
ghost use Rattle.tcl_frames.specs.Variables.Part.{whole, nested};
ghost use Rattle.tcl_frames.specs.Reached.{start, over, may_link};
ghost use Rattle.tcl_frames.specs.Sound.{AreFit};

use crate::fault::{FrameError, FrameFault, NameFault, Verb, refused};
use crate::frame::Frame;
use crate::name::{is_plain_name, read_name};
use crate::steps::{Target, find_target, level_for, variable_at};
use crate::variable::{LinkTarget, Variable};
use std::alloc::{AllocError, Global};
use tcl_text::text::Text;

/// Whether the links from a name at a level, which lead to this target, end at a local name or at
/// an element of it. Where there is no target, they end where they begin.
fn ends_at(target: &Option<Target>, level: usize, base: &str, here: usize, local: &Text) -> bool
    ensures { (part : Part) → result
        ≡ is_at here local.now (target_or (start level base.now) part target.now) }
{
    match target {
        None => level == here && local.as_str() == base,
        Some(end) => end.level == here && *local == end.name,
    }
}

/// The text of a key.
fn owned_key(alloc: Global, key: Option<&str>) -> Result<Option<Text>, AllocError>
    ensures { IfOk result (λ owned. owned ≡ option_copied key.entry) }
{
    match key {
        None => Ok(None),
        Some(key) => Ok(Some(Text::new(alloc, key)?)),
    }
}

/// The place where the links from a name at a level end, which lead to this target, or none where
/// that is an element of an element.
fn end_place(
    alloc: Global,
    target: Option<Target>,
    level: usize,
    base: &str,
    key: Option<&str>,
) -> Result<Option<LinkTarget>, AllocError>
    ensures { IfOk result (λ place. MatchOption place
        ((target_or (start level base.now) (part_of (option_copied key.entry)) target).part
        ≡ nested) (λ q. target_or (start level base.now) (part_of (option_copied key.entry)) target
        ≡ under q whole)) }
{
    match target {
        None => {
            let name = Text::new(alloc, base)?;
            let key = owned_key(alloc, key)?;
            Ok(Some(LinkTarget { level, name, key }))
        }
        Some(target) => Ok(target.into_place()),
    }
}

/// Whether a name with this variable may be made a link.
fn is_free(variable: Option<&Variable>) -> bool
    ensures { result ≡ may_link (option_copied variable.entry) }
{
    match variable {
        None => true,
        Some(Variable::Link(_)) => true,
        Some(Variable::Scalar(_)) => false,
        Some(Variable::Array(_)) => false,
    }
}

/// Makes a name of the current level a link, where it holds no value.
fn link_here(
    frames: &mut [Frame],
    alloc: Global,
    local: &Text,
    place: LinkTarget,
) -> Result<(), FrameError>
    requires { 0 < length frames.old }
    ensures ok { OnOk result (link_over frames.old (bound frames.old (current frames.old) local.now)
        local.now place ≡ Ok frames.new) }
    ensures err { IfErr result
        (λ e. Refuses e (link_over frames.old (bound frames.old (current frames.old) local.now)
        local.now place)) }
    ensures unchanged { OnErr result (frames.new ≡ frames.old) }
{
    let here = frames.len() - 1;
    if !is_free(variable_at(frames, here, local.as_str())) {
        return Err(refused(NameFault::Exists, local));
    }
    let frame = &mut frames[here];
    frame.link(alloc, local.as_str(), place)?;
    Ok(())
}

/// Makes a name of the current level a link to what another name is at a level.
pub(crate) fn link_frames(
    frames: &mut [Frame],
    alloc: Global,
    level: usize,
    other: &Text,
    local: &Text,
) -> Result<(), FrameError>
    requires fit { AreFit 0 frames.old }
    requires some { 0 < length frames.old }
    ensures ok { OnOk result (linked frames.old level other.now local.now ≡ Ok frames.new) }
    ensures err { IfErr result (λ e. Refuses e (linked frames.old level other.now local.now)) }
    ensures unchanged { OnErr result (frames.new ≡ frames.old) }
{
    if level >= frames.len() {
        return Err(FrameError::Fault(FrameFault::BadLevel(level)));
    }
    let here = frames.len() - 1;
    match read_name(other.as_str()) {
        None => Err(refused(NameFault::BadName, other)),
        Some(written) => {
            if !is_plain_name(local.as_str()) {
                return Err(refused(NameFault::BadName, local));
            }
            let from = level_for(written.is_global, level);
            let target = find_target(frames, alloc, from, written.base, written.key)?;
            if ends_at(&target, from, written.base, here, local) {
                return Err(FrameError::Fault(FrameFault::Itself));
            }
            match end_place(alloc, target, from, written.base, written.key)? {
                None => Err(refused(NameFault::NotArray(Verb::Read), other)),
                Some(place) => link_here(frames, alloc, local, place),
            }
        }
    }
}
