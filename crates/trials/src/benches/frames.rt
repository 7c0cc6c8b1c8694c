//! Times of frames and their variables.
use crate::benches::measuring::{measured, took};
use std::alloc::{AllocError, Global};
use std::io;
use std::time::Instant;
use tcl_frames::fault::FrameError;
use tcl_frames::frames::Frames;
use tcl_text::text::Text;
use tcl_value::value::Value;

/// How many frames are pushed and popped.
const FRAMES: i64 = 1_000_000;

/// How many names a frame has of which one is unset.
const MANY: u32 = 20_000;

/// How often one of many is unset and set again.
const UNSETS: u32 = 1_000;

fn names(alloc: Global) -> Result<Vec<Text>, AllocError> {
    let mut names = Vec::new(alloc);
    'names: for name in ["n", "total", "index", "result"] {
        names.push(Text::new(alloc, name)?)?;
    }
    Ok(names)
}

/// Pushes a frame, sets names in it, gets them and pops it; gives how many bytes the values have.
fn turn(
    frames: &mut Frames,
    alloc: Global,
    names: &[Text],
    number: i64,
) -> Result<usize, FrameError> {
    frames.push(alloc, Vec::new(alloc))?;
    'names: for name in names {
        frames.set(alloc, name, Value::from_int(number))?;
    }
    let mut bytes: usize = 0;
    'names: for name in names {
        bytes = bytes.wrapping_add(frames.get(name)?.text_len());
    }
    frames.pop();
    Ok(bytes)
}

/// Does so for many frames.
fn turn_often(frames: &mut Frames, alloc: Global, names: &[Text]) -> Result<usize, FrameError> {
    let mut bytes: usize = 0;
    'frames: for number in 0..FRAMES {
        bytes = bytes.wrapping_add(turn(frames, alloc, names, number)?);
    }
    Ok(bytes)
}

/// The same in frames of its own.
fn turns(alloc: Global) -> Result<usize, FrameError> {
    let names = names(alloc)?;
    let mut frames = Frames::new(alloc)?;
    turn_often(&mut frames, alloc, names.as_slice())
}

/// The name of a number.
fn numbered(alloc: Global, number: u32) -> Result<Text, AllocError> {
    Text::from_string(alloc, format!(in alloc; "v{number}")?)
}

/// Sets many names.
fn set_many(frames: &mut Frames, alloc: Global) -> Result<(), FrameError> {
    'names: for number in 0..MANY {
        frames.set(alloc, &numbered(alloc, number)?, Value::empty())?;
    }
    Ok(())
}

/// A frame of many names.
fn many(alloc: Global) -> Result<Frames, FrameError> {
    let mut frames = Frames::new(alloc)?;
    set_many(&mut frames, alloc)?;
    Ok(frames)
}

/// Unsets the names from the first on and sets each again, so that the first of them all is unset
/// each time.
fn unset_first(frames: &mut Frames, alloc: Global) -> Result<(), FrameError> {
    'numbers: for number in 0..UNSETS {
        let name = numbered(alloc, number)?;
        frames.unset(alloc, &name)?;
        frames.set(alloc, &name, Value::empty())?;
    }
    Ok(())
}

/// Unsets and sets again the name that was set last.
fn unset_last(frames: &mut Frames, alloc: Global) -> Result<(), FrameError> {
    let name = numbered(alloc, UNSETS.wrapping_sub(1))?;
    'times: for _ in 0..UNSETS {
        frames.unset(alloc, &name)?;
        frames.set(alloc, &name, Value::empty())?;
    }
    Ok(())
}

/// A name and a value for each of many keys.
fn elements(alloc: Global) -> Result<Vec<(Text, Value)>, AllocError> {
    let mut elements = Vec::new(alloc);
    'elements: for number in 0..MANY {
        elements.push((numbered(alloc, number)?, Value::from_int(i64::from(number))))?;
    }
    Ok(elements)
}

/// Sets the elements of an array of many keys at once, unsets those whose keys end in 7, and gives
/// how many are left.
fn fill_array(frames: &mut Frames, alloc: Global) -> Result<usize, FrameError> {
    let name = Text::new(alloc, "a")?;
    let pattern = Text::new(alloc, "*7")?;
    frames.set_elements(alloc, &name, elements(alloc)?)?;
    frames.unset_elements(alloc, &name, Some(&pattern))?;
    frames.element_count(&name)
}

/// The same in frames of its own.
fn whole_array(alloc: Global) -> Result<usize, FrameError> {
    let mut frames = Frames::new(alloc)?;
    fill_array(&mut frames, alloc)
}

fn show<T: Drop>(outcome: Result<T, FrameError>) -> &'static str {
    match outcome {
        Ok(_) => "done",
        Err(_) => "refused",
    }
}

/// Unsets one of many names often: the first, and then the last.
fn measure_unsetting(rt: &HostRuntime, frames: &mut Frames) -> io::Result<()> {
    measured!(
        rt,
        "the first of many unset",
        show(unset_first(frames, rt.alloc()))
    );
    measured!(
        rt,
        "the last of many unset",
        show(unset_last(frames, rt.alloc()))
    );
    Ok(())
}

/// Measures frames and their variables.
pub(crate) fn measure(rt: &HostRuntime) -> io::Result<()> {
    let start = Instant::now(rt)?;
    let bytes = turns(rt.alloc()).unwrap_or(0);
    took(rt, "1,000,000 frames", start)?;
    println!(rt; "{bytes} bytes of values got")?;
    match many(rt.alloc()) {
        Ok(mut frames) => measure_unsetting(rt, &mut frames)?,
        Err(_) => println!(rt; "refused")?,
    }
    let start = Instant::now(rt)?;
    let left = whole_array(rt.alloc()).unwrap_or(0);
    took(rt, "an array of 20,000 elements", start)?;
    println!(rt; "{left} elements left")
}
