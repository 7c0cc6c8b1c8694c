//! The elements of the array that a name is, each by its key.
ghost use Rattle.std.specs.Prelude.{◌≡◌, ◌<◌, Ok, length, IfOk, OnOk, IfErr, OnErr};
ghost use Rattle.tcl_frames.specs.Faults.{Refuses};
ghost use Rattle.tcl_frames.specs.Keys.{change_key};
ghost use Rattle.tcl_frames.specs.Sound.{AreFit};

use crate::access::Part;
use crate::fault::{FrameError, NameFault, refused};
use crate::frame::{Change, Frame};
use crate::name::{element_text, read_name};
use crate::steps::{change_at, change_from, level_meant};
use std::alloc::{AllocError, Global};
use tcl_text::text::Text;

/// Changes the element with a key, of what a name is.
pub(crate) fn change_key_in(
    frames: &mut [Frame],
    alloc: Global,
    name: &Text,
    key: &Text,
    change: Change,
) -> Result<(), FrameError>
    requires fit { AreFit 0 frames.old }
    requires some { 0 < length frames.old }
    ensures ok { OnOk result (change_key change frames.old name.now key.now ≡ Ok frames.new) }
    ensures err { IfErr result (λ e. Refuses e (change_key change frames.old name.now key.now)) }
    ensures unchanged { OnErr result (frames.new ≡ frames.old) }
{
    match read_name(name.as_str()) {
        None => Err(refused(NameFault::BadName, name)),
        Some(written) => {
            let level = level_meant(frames, written.is_global);
            let told = element_text(alloc, name, key)?;
            let base = written.base;
            match written.key {
                None => change_from(
                    frames,
                    alloc,
                    level,
                    base,
                    Some(key.as_str()),
                    change,
                    &told,
                ),
                Some(_) => change_at(frames, alloc, level, base, Part::Nested, change, &told),
            }
        }
    }
}
